// A burst: the frames of one lent store, received in order in one call (02, Wish 1). Starts and lengths are two lists of
// numbers; `burst_pairs` has the form over a list of pairs. The call takes the device and gives back the next one, as the
// methods of `Enet` do, and stands above them since it is made of single receives.
#![tactic(auto)]

ghost use Rattle.std.specs.Prelude.{◌≡◌};
ghost use Rattle.pair.specs.Turn.{bursting};
ghost use Rattle.burst.specs.Burst.{refuses, pairs_of, burst_of};
ghost use Rattle.burst.specs.Turns.{turns_of};

use enet::{Answered, Enet};

// Whether a burst of so many pairs into so many answers is refused.
#[tactic(auto, unfolding(crate::specs::Burst::refuses))]
pub fn refuses(pairs: usize, answers: usize) -> bool
    ensures { result ≡ refuses pairs answers }
{
    64 < pairs || answers != pairs
}

// The pairs in order, each answer in its own place.
fn each(
    begun: Answered,
    memory: &mut [u8],
    store: &[u8],
    starts: &[u32],
    lengths: &[u32],
    answers: &mut [u32],
) -> Answered
    ensures { bursting result memory.new answers.new ≡ turns_of (bursting begun memory.old answers.old) store.now 0 (pairs_of starts.now lengths.now) }
{
    let mut last = begun;
    for (i, (start, length)) in starts.iter().zip(lengths).enumerate() {
        last = pair::turn(last, memory, store, *start, *length, answers, i);
    }
    last
}

// A burst of the pairs of two lists.
pub fn burst(
    device: Enet,
    memory: &mut [u8],
    store: &[u8],
    starts: &[u32],
    lengths: &[u32],
    answers: &mut [u32],
) -> Answered
    ensures { bursting result memory.new answers.new ≡ burst_of device memory.old store.now starts.now lengths.now answers.old }
{
    let refused = Answered {
        number: answer::BURST,
        device,
    };
    if lengths.len() != starts.len() {
        return refused;
    }
    if refuses(starts.len(), answers.len()) {
        return refused;
    }
    let begun = Answered {
        number: answer::DONE,
        device,
    };
    each(begun, memory, store, starts, lengths, answers)
}
