// Which register stands at an offset, and a register read.
ghost use Rattle.std.specs.Prelude.{◌≡◌, Some};
ghost use Rattle.registers.specs.Access.{register_at, value_of, found, read};

use crate::{Register, Registers};
use answer::Refusal;

impl Register {
    // The register at an offset, if one is modelled there.
    #[tactic(auto, unfolding(crate::specs::Access::register_at))]
    pub fn at(offset: u32) -> Option<Register>
        ensures { result ≡ register_at offset }
    {
        match offset {
            Registers::IER => Some(Register::Ier),
            Registers::ISR => Some(Register::Isr),
            Registers::RXSTR => Some(Register::RxStart),
            Registers::RXNDAR => Some(Register::RxNext),
            Registers::TXSTR => Some(Register::TxStart),
            Registers::TXNDAR => Some(Register::TxNext),
            Registers::TXTOR => Some(Register::TxTimeout),
            Registers::MCR => Some(Register::Mcr),
            Registers::MAH => Some(Register::Mah),
            Registers::MAL => Some(Register::Mal),
            Registers::MCHA => Some(Register::Mcha),
            Registers::MCLA => Some(Register::Mcla),
            _ => None,
        }
    }
}

impl Registers {
    // What a register reads as.
    fn value_of(self, register: Register) -> u32
        ensures { result ≡ value_of self (Some register) }
    {
        match register {
            Register::Ier => self.ier,
            Register::Isr => self.isr,
            Register::RxStart => self.rx.start,
            Register::RxNext => self.rx.next,
            Register::TxStart => self.tx.start,
            Register::TxNext => self.tx.next,
            Register::TxTimeout => self.txtor,
            Register::Mcr => self.filter.mcr,
            Register::Mah => self.filter.mah,
            Register::Mal => self.filter.mal,
            Register::Mcha => self.filter.mcha,
            Register::Mcla => self.filter.mcla,
        }
    }

    // A register read, or its refusal by 2.
    #[tactic(auto, unfolding(crate::specs::Access::read))]
    pub fn read(self, offset: u32) -> Result<u32, Refusal>
        ensures { found result ≡ read self offset }
    {
        let register = Register::at(offset).ok_or(Refusal::RegisterNotModelled)?;
        Ok(self.value_of(register))
    }
}
