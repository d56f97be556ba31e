// The bits of each register that a write can change.
#![tactic(auto)]

ghost use Rattle.std.specs.Prelude.{◌≡◌};
ghost use Rattle.writable.specs.Writable.{writable_bits, kept};

use registers::{Register, Registers};

// A register's writable bits; of the status register, those that writing 1 clears.
fn bits(register: Option<Register>) -> u32
    ensures { result ≡ writable_bits register }
{
    match register {
        Some(Register::Ier) => Registers::IER_WRITABLE,
        Some(Register::Isr) => Registers::ISR_CLEARABLE,
        Some(Register::RxStart) => Registers::RXSTR_WRITABLE,
        Some(Register::RxNext) => Registers::RXNDAR_WRITABLE,
        Some(Register::TxStart) => Registers::TXSTR_WRITABLE,
        Some(Register::TxNext) => Registers::TXNDAR_WRITABLE,
        Some(Register::TxTimeout) => Registers::TXTOR_WRITABLE,
        Some(Register::Mcr) => Registers::MCR_WRITABLE,
        Some(Register::Mah) => Registers::MAH_WRITABLE,
        Some(Register::Mal) => Registers::MAL_WRITABLE,
        Some(Register::Mcha) => Registers::MCHA_WRITABLE,
        Some(Register::Mcla) => Registers::MCLA_WRITABLE,
        None => 0,
    }
}

// What counts of a value that is written to a register.
pub fn kept(register: Option<Register>, v: u32) -> u32
    ensures { result ≡ kept register v }
{
    v & bits(register)
}
