// The registers of the device and its two engines: their constants, reset, reading, and the interrupt line.
#![tactic(auto)]

mod access;

ghost use Rattle.std.specs.Prelude.{◌≡◌};
ghost use Rattle.registers.specs.Registers.{reset, interrupt_line};

use engine::Engine;
use filter::Filter;

// Interrupt status and enable, the filter registers, an engine for each direction with its two registers, and the send time-out.
#[derive(Clone, Copy)]
pub struct Registers {
    pub isr: u32,
    pub ier: u32,
    pub filter: Filter,
    pub rx: Engine,
    pub tx: Engine,
    pub txtor: u32,
}

// The modelled registers.
#[derive(Clone, Copy, Debug, PartialEq, Eq)]
pub enum Register {
    Ier,
    Isr,
    RxStart,
    RxNext,
    TxStart,
    TxNext,
    TxTimeout,
    Mcr,
    Mah,
    Mal,
    Mcha,
    Mcla,
}

// A number of the table, and the registers that a call leaves.
#[derive(Clone, Copy)]
pub struct Change {
    pub number: u32,
    pub registers: Registers,
}

impl Registers {
    // Offsets (RM0006, chapter 8).
    pub const IER: u32 = 0x04;

    pub const ISR: u32 = 0x08;

    pub const RXSTR: u32 = 0x10;

    pub const RXNDAR: u32 = 0x1c;

    pub const TXSTR: u32 = 0x30;

    pub const TXNDAR: u32 = 0x3c;

    pub const TXTOR: u32 = 0x48;

    pub const MCR: u32 = 0x400;

    pub const MAH: u32 = 0x404;

    pub const MAL: u32 = 0x408;

    pub const MCHA: u32 = 0x40c;

    pub const MCLA: u32 = 0x410;

    // Reset values.
    pub const IER_RESET: u32 = 0x0000_0000;

    pub const ISR_RESET: u32 = 0x0005_0001;

    pub const RXSTR_RESET: u32 = 0x0000_0000;

    pub const RXNDAR_RESET: u32 = 0x0000_0000;

    pub const TXSTR_RESET: u32 = 0x0000_0000;

    pub const TXNDAR_RESET: u32 = 0x0000_0000;

    pub const TXTOR_RESET: u32 = 0x0000_0000;

    pub const MCR_RESET: u32 = 0x0000_0000;

    pub const MAH_RESET: u32 = 0x0000_ffff;

    pub const MAL_RESET: u32 = 0xffff_ffff;

    pub const MCHA_RESET: u32 = 0x0000_0000;

    pub const MCLA_RESET: u32 = 0x0000_0000;

    // Writable bits; of the status register, those that writing 1 clears.
    pub const IER_WRITABLE: u32 = 0x92cf_82ef;

    pub const ISR_CLEARABLE: u32 = 0x92cf_82ef;

    pub const RXSTR_WRITABLE: u32 = 0x00ff_ffe5;

    pub const RXNDAR_WRITABLE: u32 = 0xffff_fffd;

    pub const TXSTR_WRITABLE: u32 = 0x00ff_ff25;

    pub const TXNDAR_WRITABLE: u32 = 0xffff_fffd;

    pub const TXTOR_WRITABLE: u32 = 0x0000_ffff;

    pub const MCR_WRITABLE: u32 = 0xc3ff_9ffd;

    pub const MAH_WRITABLE: u32 = 0x0000_ffff;

    pub const MAL_WRITABLE: u32 = 0xffff_ffff;

    pub const MCHA_WRITABLE: u32 = 0xffff_ffff;

    pub const MCLA_WRITABLE: u32 = 0xffff_ffff;

    // The status bits that the base raises.
    pub const TX_CURR_DONE: u32 = 0x8000_0000;

    pub const TX_DONE: u32 = 0x0080_0000;

    pub const RX_CURR_DONE: u32 = 0x0000_8000;

    pub const RX_DONE: u32 = 0x0000_0080;

    pub const PACKET_LOST: u32 = 0x0000_0020;

    // The one that a tick raises.
    pub const TX_TO: u32 = 0x0008_0000;

    // The reset state.
    pub fn reset() -> Registers
        ensures { result ≡ reset }
    {
        let rx = Engine::reset(Registers::RXSTR_RESET, Registers::RXNDAR_RESET);
        let tx = Engine::reset(Registers::TXSTR_RESET, Registers::TXNDAR_RESET);
        let filter = Filter {
            mcr: Registers::MCR_RESET,
            mah: Registers::MAH_RESET,
            mal: Registers::MAL_RESET,
            mcha: Registers::MCHA_RESET,
            mcla: Registers::MCLA_RESET,
        };
        Registers {
            isr: Registers::ISR_RESET,
            ier: Registers::IER_RESET,
            filter,
            rx,
            tx,
            txtor: Registers::TXTOR_RESET,
        }
    }

    // The interrupt line is high.
    #[tactic(auto, unfolding(crate::specs::Registers::interrupt_line))]
    pub fn interrupt_line(self) -> bool
        ensures { result ≡ interrupt_line self }
    {
        self.isr & self.ier != 0
    }
}
