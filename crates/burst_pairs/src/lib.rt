// A burst over a lent list of pairs (01, "one thin function walks a lent slice of structs"; 02, Wish 1): each pair is taken
// apart and handed to `pair::turn`, as the form over two lists does. Other code calls `burst::burst`.
#![tactic(auto)]

ghost use Rattle.std.specs.Prelude.{◌≡◌};
ghost use Rattle.pair.specs.Turn.{bursting};
ghost use Rattle.burst.specs.Burst.{burst};

use enet::{Answered, Enet};
use pair::Pair;

// A burst of the pairs of one list.
pub fn burst_pairs(
    device: Enet,
    memory: &mut [u8],
    store: &[u8],
    pairs: &[Pair],
    answers: &mut [u32],
) -> Answered
    ensures { bursting result memory.new answers.new ≡ burst device memory.old store.now pairs.now answers.old }
{
    let refused = Answered {
        number: answer::BURST,
        device,
    };
    if burst::refuses(pairs.len(), answers.len()) {
        return refused;
    }
    let mut last = Answered {
        number: answer::DONE,
        device,
    };
    for (i, p) in pairs.iter().enumerate() {
        last = pair::turn(last, memory, store, p.start, p.length, answers, i);
    }
    last
}
