// One pair of a burst: its frame in the lent store, received by a single receive, and its answer in its own place
// (02, Wish 1).
#![tactic(auto)]

ghost use Rattle.std.specs.Prelude.{◌≡◌, set};
ghost use Rattle.enet.specs.Device.{outcome};
ghost use Rattle.pair.specs.Pair.{pair, received};
ghost use Rattle.pair.specs.Turn.{bursting, turn};

use enet::{Answered, Enet};

// Where a frame lies in the store.
#[derive(Clone, Copy)]
pub struct Pair {
    pub start: u32,
    pub length: u32,
}

// A single receive of the pair's bytes, or 16.
#[tactic(auto, unfolding(crate::specs::Pair::received, crate::specs::Pair::passes, crate::specs::Pair::bytes_of))]
fn received(device: Enet, memory: &mut [u8], store: &[u8], start: u32, length: u32) -> Answered
    ensures { outcome result memory.new ≡ received device memory.old store.now (pair start length) }
{
    let at = start as usize;
    let n = length as usize;
    let Some(frame) = store.get(at..at + n) else {
        return Answered {
            number: answer::BURST,
            device,
        };
    };
    device.receive(memory, frame)
}

// An answer in its place; one past the list's end is left out.
pub fn put_answer(answers: &mut [u32], i: usize, number: u32)
    ensures { answers.new ≡ set answers.old i number }
{
    if i < answers.len() {
        answers[i] = number;
    }
}

// The pair at place i of a burst: its answer goes there, and the burst's number stays. It takes and gives both in one value, so
// that the loops above hand it on and make none of their own.
#[tactic(auto, unfolding(crate::specs::Turn::turn))]
pub fn turn(
    last: Answered,
    memory: &mut [u8],
    store: &[u8],
    start: u32,
    length: u32,
    answers: &mut [u32],
    i: usize,
) -> Answered
    ensures { bursting result memory.new answers.new ≡ turn (bursting last memory.old answers.old) store.now i (pair start length) }
{
    let next = received(last.device, memory, store, start, length);
    put_answer(answers, i, next.number);
    Answered {
        device: next.device,
        ..last
    }
}
