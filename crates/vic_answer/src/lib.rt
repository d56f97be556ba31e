// The IRQ answer of the two interrupt controllers.
#![tactic(auto)]

ghost use Rattle.std.specs.Prelude.{◌<◌, ◌≡◌};
ghost use Rattle.vic_answer.specs.Answer.{raised_in, raised_rank, answered_rank, vector_at, input_at, irq};

use vic_controller::Controller;
use vic_pair::{Inputs, Vics, Which};
use vic_service::RANKS_EACH;

// A request: its controller, its input and its vector.
#[derive(Clone, Copy)]
pub struct Request {
    pub which: Which,
    pub input: u32,
    pub vector: u32,
}

// The lowest rank raised in a controller, or how many it has.
fn raised_in(c: Controller, inputs: u16) -> usize
    ensures { result ≡ raised_in c inputs }
{
    vic_rank::lowest_rank(&c.controls, c.irq_status(inputs))
}

// The lowest rank raised in the pair, or how many it has.
#[tactic(auto, using(crate::proofs::Laws::raised_within), unfolding(crate::specs::Answer::raised_rank))]
pub fn raised_rank(vics: Vics, inputs: Inputs) -> usize
    ensures { result ≡ raised_rank vics inputs }
{
    let first = raised_in(vics.vic0, inputs.vic0);
    if first < RANKS_EACH {
        return first;
    }
    RANKS_EACH + raised_in(vics.vic1, inputs.vic1)
}

// The rank of the answer: the lowest raised in the pair, where that is above those in service.
pub fn answered(vics: Vics, inputs: Inputs) -> Option<usize>
    ensures { result ≡ answered_rank vics inputs }
{
    let rank = raised_rank(vics, inputs);
    if rank < vic_service::last_taken(&vics.service) {
        Some(rank)
    } else {
        None
    }
}

// The vector of a rank of a controller.
#[tactic(auto, unfolding(crate::specs::Answer::vector_at))]
pub fn vector_at(c: Controller, place: usize) -> u32
    ensures { result ≡ vector_at c place }
{
    if place < 16 {
        c.address(place)
    } else {
        c.default
    }
}

// The input of a rank of a controller.
#[tactic(auto, unfolding(crate::specs::Answer::input_at))]
fn input_at(c: Controller, place: usize) -> u32
    requires { place < 32 }
    ensures { result ≡ input_at c place }
{
    if place < 16 {
        c.control(place) % 16
    } else {
        place as u32 - 16
    }
}

// The IRQ answer: a request, or none.
#[tactic(auto, unfolding(crate::specs::Answer::irq))]
pub fn irq(vics: Vics, inputs: Inputs) -> Option<Request>
    ensures { result ≡ irq vics inputs }
{
    let rank = answered(vics, inputs)?;
    let place = rank % RANKS_EACH;
    let (which, c) = if rank < RANKS_EACH {
        (Which::Vic0, vics.vic0)
    } else {
        (Which::Vic1, vics.vic1)
    };
    Some(Request {
        which,
        input: input_at(c, place),
        vector: vector_at(c, place),
    })
}
