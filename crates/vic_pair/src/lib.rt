// The two interrupt controllers as a pair (RM0006, chapter 4): their state and reset, their inputs with ENET's line among them, and
// FIQ.
#![tactic(auto)]

ghost use Rattle.std.specs.Prelude.{◌≡◌};
ghost use Rattle.vic_pair.specs.Vics.{reset, low, with_line, fiq};

use vic_controller::Controller;
use vic_service::{RANKS, Service};

// Both controllers, and the ranks in service: those of VIC0 up to 31, those of VIC1 from 32 on.
#[derive(Clone, Copy)]
pub struct Vics {
    pub vic0: Controller,
    pub vic1: Controller,
    pub service: Service,
}

// The levels of the sixteen inputs of each controller, input n at bit n.
#[derive(Clone, Copy)]
pub struct Inputs {
    pub vic0: u16,
    pub vic1: u16,
}

// One of the two.
#[derive(Clone, Copy)]
pub enum Which {
    Vic0,
    Vic1,
}

impl Vics {
    // The reset state.
    pub fn reset() -> Vics
        ensures { result ≡ reset }
    {
        Vics {
            vic0: Controller::reset(),
            vic1: Controller::reset(),
            service: [false; RANKS],
        }
    }

    // FIQ is high.
    #[tactic(auto, unfolding(crate::specs::Vics::fiq))]
    pub fn fiq(self, inputs: Inputs) -> bool
        ensures { result ≡ fiq self inputs }
    {
        self.vic0.fiq_status(inputs.vic0) != 0 || self.vic1.fiq_status(inputs.vic1) != 0
    }
}

impl Inputs {
    // ENET's line, input 11 of VIC0 (RM0006, Table 13).
    pub const ENET: u16 = 0x0800;

    // All of them low.
    pub fn low() -> Inputs
        ensures { result ≡ low }
    {
        Inputs { vic0: 0, vic1: 0 }
    }

    // These inputs with ENET's line in its place, whatever stood there.
    #[tactic(auto, unfolding(crate::specs::Vics::with_line))]
    pub fn with_line(self, line: bool) -> Inputs
        ensures { result ≡ with_line self line }
    {
        Inputs {
            vic0: if line {
                self.vic0 | Inputs::ENET
            } else {
                self.vic0 & !Inputs::ENET
            },
            ..self
        }
    }
}
