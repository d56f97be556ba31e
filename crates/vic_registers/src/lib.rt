// The registers of an interrupt controller: which stands at an offset, and what it reads as.
#![tactic(auto)]

ghost use Rattle.std.specs.Prelude.{◌≡◌, Some, None};
ghost use Rattle.std.specs.Prelude.{if◌then◌else◌};
ghost use Rattle.answer.specs.Refusals.{number_of};
ghost use Rattle.vic_registers.specs.Access.{slot_at, slot_of, register_at, access_number, value_of};

use answer::Refusal;
use vic_controller::Controller;

// The registers of a controller by itself, those of a slot by its number. The current vector address is not among them: what a read
// or a write of it does goes by both controllers.
#[derive(Clone, Copy)]
pub enum Register {
    IrqStatus,
    FiqStatus,
    RawStatus,
    Selection,
    Enable,
    EnableClear,
    Software,
    SoftwareClear,
    Protection,
    DefaultVector,
    Address(usize),
    Control(usize),
}

// The slot whose register stands at an offset, where slot 0 has `first`.
#[tactic(auto, unfolding(crate::specs::Access::slot_at, crate::specs::Access::slot_of))]
fn slot_at(first: u32, offset: u32) -> Option<usize>
    ensures { result ≡ (if slot_at first offset then Some (slot_of first offset) else None) }
{
    if first <= offset && offset - first < 64 && offset % 4 == 0 {
        Some(((offset - first) / 4) as usize)
    } else {
        None
    }
}

impl Register {
    // The register at an offset, where one is modelled.
    #[tactic(auto, unfolding(crate::specs::Access::register_at))]
    pub fn at(offset: u32) -> Option<Register>
        ensures { result ≡ register_at offset }
    {
        if let Some(slot) = slot_at(Controller::VA0R, offset) {
            return Some(Register::Address(slot));
        }
        if let Some(slot) = slot_at(Controller::VC0R, offset) {
            return Some(Register::Control(slot));
        }
        match offset {
            Controller::ISR => Some(Register::IrqStatus),
            Controller::FSR => Some(Register::FiqStatus),
            Controller::RINTSR => Some(Register::RawStatus),
            Controller::INTSR => Some(Register::Selection),
            Controller::INTER => Some(Register::Enable),
            Controller::INTECR => Some(Register::EnableClear),
            Controller::SWINTR => Some(Register::Software),
            Controller::SWINTCR => Some(Register::SoftwareClear),
            Controller::PER => Some(Register::Protection),
            Controller::DVAR => Some(Register::DefaultVector),
            _ => None,
        }
    }

    // The refusal of an access, 2, where no register is modelled.
    pub fn access_number(register: Option<Register>) -> Result<(), Refusal>
        ensures { number_of result ≡ access_number register }
    {
        match register {
            Some(_) => Ok(()),
            None => Err(Refusal::RegisterNotModelled),
        }
    }
}

// What a register reads as, with the levels of the inputs; 0 where none is modelled.
pub fn value_of(c: Controller, inputs: u16, register: Option<Register>) -> u32
    ensures { result ≡ value_of c inputs register }
{
    let Some(register) = register else {
        return 0;
    };
    match register {
        Register::IrqStatus => u32::from(c.irq_status(inputs)),
        Register::FiqStatus => u32::from(c.fiq_status(inputs)),
        Register::RawStatus => u32::from(inputs | c.software),
        Register::Selection => u32::from(c.selection),
        Register::Enable => u32::from(c.enable),
        Register::Software => u32::from(c.software),
        Register::EnableClear | Register::SoftwareClear => 0,
        Register::Protection => u32::from(c.protection),
        Register::DefaultVector => c.default,
        Register::Address(slot) => c.address(slot),
        Register::Control(slot) => c.control(slot),
    }
}
