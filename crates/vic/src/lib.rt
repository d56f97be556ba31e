// The two interrupt controllers of RM0006, chapter 4, beside the device: a register read and written, with what the current vector
// address takes into service and ends. The pair's state is vic_pair's, its answer vic_answer's.
#![tactic(auto)]

ghost use Rattle.std.specs.Prelude.{◌≡◌};
ghost use Rattle.vic.specs.Access.{controller_of, with_controller, levels_of, came_from, vector_of, found, read_vector, write_vector, read, write, read_by, write_by};

use answer::Refusal;
use vic_controller::Controller;
use vic_pair::{Inputs, Vics, Which};
use vic_registers::Register;
use vic_service::{RANKS, RANKS_EACH};

// The value read, and the pair that is left.
#[derive(Clone, Copy)]
pub struct Found {
    pub value: u32,
    pub vics: Vics,
}

fn controller_of(vics: Vics, which: Which) -> Controller
    ensures { result ≡ controller_of vics which }
{
    match which {
        Which::Vic0 => vics.vic0,
        Which::Vic1 => vics.vic1,
    }
}

fn with_controller(vics: Vics, which: Which, c: Controller) -> Vics
    ensures { result ≡ with_controller vics which c }
{
    match which {
        Which::Vic0 => Vics { vic0: c, ..vics },
        Which::Vic1 => Vics { vic1: c, ..vics },
    }
}

fn levels_of(inputs: Inputs, which: Which) -> u16
    ensures { result ≡ levels_of inputs which }
{
    match which {
        Which::Vic0 => inputs.vic0,
        Which::Vic1 => inputs.vic1,
    }
}

// A rank in service came from the controller.
fn came_from(which: Which, rank: usize) -> bool
    ensures { result ≡ came_from which rank }
{
    match which {
        Which::Vic0 => rank < RANKS_EACH,
        Which::Vic1 => RANKS_EACH <= rank && rank < RANKS,
    }
}

// The vector of a rank, as its registers stand now.
fn vector_of(vics: Vics, rank: usize) -> u32
    ensures { result ≡ vector_of vics rank }
{
    let c = if rank < RANKS_EACH {
        vics.vic0
    } else {
        vics.vic1
    };
    vic_answer::vector_at(c, rank % RANKS_EACH)
}

// A current vector address read. VIC0's takes the answer into service. VIC1's is the vector of the last taken, where that came from
// VIC1.
#[tactic(auto, unfolding(crate::specs::Access::read_vector))]
fn read_vector(vics: Vics, inputs: Inputs, which: Which) -> Found
    ensures { found result.value result.vics ≡ read_vector vics inputs which }
{
    match which {
        Which::Vic0 => {
            let Some(rank) = vic_answer::answered(vics, inputs) else {
                return Found {
                    value: vics.vic0.default,
                    vics,
                };
            };
            Found {
                value: vector_of(vics, rank),
                vics: Vics {
                    service: vic_service::taken(vics.service, rank),
                    ..vics
                },
            }
        }
        Which::Vic1 => {
            let last = vic_service::last_taken(&vics.service);
            let value = if came_from(which, last) {
                vector_of(vics, last)
            } else {
                0
            };
            Found { value, vics }
        }
    }
}

// A current vector address written: the last taken ends, where it came from that controller.
#[tactic(auto, unfolding(crate::specs::Access::write_vector))]
fn write_vector(vics: Vics, which: Which) -> Vics
    ensures { result ≡ write_vector vics which }
{
    let last = vic_service::last_taken(&vics.service);
    if !came_from(which, last) {
        return vics;
    }
    Vics {
        service: vic_service::ended(vics.service, last),
        ..vics
    }
}

// A register read, with the levels of the inputs.
#[tactic(auto, unfolding(crate::specs::Access::read))]
pub fn read(vics: Vics, inputs: Inputs, which: Which, offset: u32) -> Result<Found, Refusal>
    ensures { read_by vics result ≡ read vics inputs which offset }
{
    if offset == Controller::VAR {
        return Ok(read_vector(vics, inputs, which));
    }
    let register = Register::at(offset);
    Register::access_number(register)?;
    let c = controller_of(vics, which);
    Ok(Found {
        value: vic_registers::value_of(c, levels_of(inputs, which), register),
        vics,
    })
}

// A register write, which gives the pair that is left.
#[tactic(auto, unfolding(crate::specs::Access::write))]
pub fn write(vics: Vics, which: Which, offset: u32, value: u32) -> Result<Vics, Refusal>
    ensures { write_by vics result ≡ write vics which offset value }
{
    if offset == Controller::VAR {
        return Ok(write_vector(vics, which));
    }
    let register = Register::at(offset);
    Register::access_number(register)?;
    let c = vic_write::written(controller_of(vics, which), register, value);
    Ok(with_controller(vics, which, c))
}
