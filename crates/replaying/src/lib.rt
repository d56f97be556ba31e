// A recorded day replayed on a new bench (02, Wish 4).
#![tactic(auto)]

ghost use Rattle.std.specs.Prelude.{◌≡◌};
ghost use Rattle.enet.specs.Device.{reset};
ghost use Rattle.replaying.specs.Replay.{replaying, replayed_of, replay};

use answer::Refusal;
use enet::Enet;

// A day that was replayed: how many bytes its events are, how many events, and the device behind them.
#[derive(Clone, Copy)]
pub struct Replayed {
    pub bytes: usize,
    pub events: usize,
    pub device: Enet,
}

// Why a replay is refused, with the bad block where it is one's, else 0. It has no device: the reset state, over no window.
#[derive(Clone, Copy)]
pub struct Refused {
    pub refusal: Refusal,
    pub block: usize,
    pub device: Enet,
}

// A refusal of a replay.
fn refuse(refusal: Refusal, block: usize) -> Refused
    ensures { result ≡ record { refusal = refusal; block = block; device = reset } }
{
    Refused {
        refusal,
        block,
        device: Enet::reset(),
    }
}

// It is refused as reading is.
impl From<stream::Refused> for Refused {
    ghost from_gives = { λ unread refused. refused ≡ record { refusal = unread.refusal; block = unread.block; device = reset } };

    fn from(unread: stream::Refused) -> Refused {
        refuse(unread.refusal, unread.block)
    }
}

// Replays a trace. Its events are put into the room first, since they may cross blocks, and are played from there.
pub fn replay(
    trace: &[u8],
    room: &mut [u8],
    memory: &mut [u8],
    output: &mut [u8],
    answers: &mut [u32],
) -> Result<Replayed, Refused>
    ensures { replaying (replayed_of result) room.new memory.new output.new answers.new ≡ replay trace.now room.old memory.old output.old answers.old }
{
    let summary = trace::look(trace, room.len())?;
    if answers.len() < summary.events {
        return Err(refuse(Refusal::AnswersShort, 0));
    }
    stream::copy(trace, room);
    let new = Enet::new(summary.base, summary.window);
    let events = memory::part(room, 0, summary.bytes);
    let device = playback::play(new.device, memory, output, events, answers);
    Ok(Replayed {
        bytes: summary.bytes,
        events: summary.events,
        device,
    })
}
