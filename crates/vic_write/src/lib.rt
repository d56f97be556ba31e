// A register of an interrupt controller written.
#![tactic(auto)]

ghost use Rattle.std.specs.Prelude.{◌≡◌, set};
ghost use Rattle.vic_write.specs.Write.{low_half, control_kept, written};

use vic_controller::Controller;
use vic_registers::Register;

// What is kept for a register with a bit for each input.
fn low_half(v: u32) -> u16
    ensures { result ≡ low_half v }
{
    (v % 0x1_0000) as u16
}

// What is kept of a vector control.
fn control_kept(v: u32) -> u8
    ensures { result ≡ control_kept v }
{
    (v & Controller::VCIR_WRITABLE) as u8
}

// The vector addresses or controls of the slots with one written; past the last slot there is none.
fn with_slot<T: Copy, const N: usize>(mut slots: [T; N], slot: usize, value: T) -> [T; N]
    ensures { result ≡ set slots slot value }
{
    if slot < N {
        slots[slot] = value;
    }
    slots
}

// A register written; where none is modelled nothing is.
pub fn written(mut c: Controller, register: Option<Register>, v: u32) -> Controller
    ensures { result ≡ written c register v }
{
    let Some(register) = register else {
        return c;
    };
    match register {
        Register::IrqStatus | Register::FiqStatus | Register::RawStatus => {}
        Register::Selection => c.selection = low_half(v),
        Register::Enable => c.enable |= low_half(v),
        Register::EnableClear => c.enable &= !low_half(v),
        Register::Software => c.software |= low_half(v),
        Register::SoftwareClear => c.software &= !low_half(v),
        Register::Protection => c.protection = v % 2 == 1,
        Register::DefaultVector => c.default = v,
        Register::Address(slot) => c.addresses = with_slot(c.addresses, slot, v),
        Register::Control(slot) => c.controls = with_slot(c.controls, slot, control_kept(v)),
    }
    c
}
