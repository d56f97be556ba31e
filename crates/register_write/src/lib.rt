// A register write: the registers that it leaves, or its refusal.
#![tactic(auto)]

ghost use Rattle.std.specs.Prelude.{◌≡◌, Some};
ghost use Rattle.answer.specs.Refusals.{number_of};
ghost use Rattle.register_write.specs.Write.{cleared, stored, write_number, changed, write};

use answer::Refusal;
use registers::{Register, Registers};

// A status word with the bits cleared that are written as 1.
fn cleared(isr: u32, v: u32) -> u32
    ensures { result ≡ cleared isr v }
{
    isr & !v
}

// The registers with what is kept of a value.
fn stored(mut r: Registers, register: Register, v: u32) -> Registers
    ensures { result ≡ stored r (Some register) v }
{
    match register {
        Register::Ier => r.ier = v,
        Register::Isr => r.isr = cleared(r.isr, v),
        Register::RxStart => r.rx = engine_write::start_written(r.rx, v),
        Register::RxNext => r.rx = engine_write::next_written(r.rx, v),
        Register::TxStart => r.tx = engine_write::start_written(r.tx, v),
        Register::TxNext => r.tx = engine_write::next_written(r.tx, v),
        Register::TxTimeout => r.txtor = v,
        Register::Mcr => r.filter.mcr = v,
        Register::Mah => r.filter.mah = v,
        Register::Mal => r.filter.mal = v,
        Register::Mcha => r.filter.mcha = v,
        Register::Mcla => r.filter.mcla = v,
    }
    r
}

// A next-descriptor register is not written while its engine runs: the refusal 15.
fn writing(receiving: bool, sending: bool, register: Register) -> Result<(), Refusal>
    ensures { number_of result ≡ write_number receiving sending (Some register) }
{
    match register {
        Register::RxNext if receiving => Err(Refusal::EngineRuns),
        Register::TxNext if sending => Err(Refusal::EngineRuns),
        _ => Ok(()),
    }
}

// A register write, or its refusal by 2 or 15.
#[tactic(auto, unfolding(crate::specs::Write::write))]
pub fn write(r: Registers, offset: u32, v: u32) -> Result<Registers, Refusal>
    ensures { changed r result ≡ write r offset v }
{
    let register = Register::at(offset).ok_or(Refusal::RegisterNotModelled)?;
    writing(r.rx.running, r.tx.running, register)?;
    Ok(stored(r, register, writable::kept(Some(register), v)))
}
