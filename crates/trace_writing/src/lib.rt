// A trace written of a window and an event list (02, Wish 4; docs/TRACE.md): first the number, then the blocks.
#![tactic(auto)]

mod blocks;

ghost use Rattle.std.specs.Prelude.{◌+◌, ◌≡◌};
ghost use Rattle.answer.specs.Refusals.{number_of};
ghost use Rattle.trace_writing.specs.Made.{blocks_for};
ghost use Rattle.trace_writing.specs.Writing.{is_whole, write_number, written_of, writing_of, write};

use answer::Refusal;
use event::Ending;
use window::Window;

// A list with whole events and nothing behind them.
fn is_whole(ending: Ending) -> bool
    ensures { result ≡ is_whole ending }
{
    matches!(ending, Ending::Whole)
}

// How many blocks so many bytes of events need, with the header's six before them. The sum of the two could wrap; the sum of
// the remainder and six cannot.
fn needed(bytes: usize) -> usize
    ensures { result ≡ blocks_for (6 + bytes) }
{
    bytes / 504 + (bytes % 504 + 509) / 504
}

// The first refusal that holds, in the order in which they are named.
#[tactic(auto, unfolding(crate::specs::Writing::write_number))]
fn check(base: u32, window: u32, events: &[u8], room: usize) -> Result<(), Refusal>
    ensures { number_of result ≡ write_number base window events.now room }
{
    let seen = Window {
        base,
        length: window,
    };
    let walked = event::walk(events);
    if !is_whole(walked.ending) {
        return Err(Refusal::EventList);
    }
    if !seen.allowed() {
        return Err(Refusal::TraceWindow);
    }
    let blocks = needed(events.len());
    if blocks > 65536 {
        return Err(Refusal::Blocks);
    }
    if room < 512 * blocks {
        return Err(Refusal::BlockRoom);
    }
    Ok(())
}

// Writes the trace of a window and an event list to the front of the room, and answers how many blocks it has.
pub fn write(base: u32, window: u32, events: &[u8], room: &mut [u8]) -> Result<usize, Refusal>
    ensures { writing_of (written_of result) room.new ≡ write base window events.now room.old }
{
    check(base, window, events, room.len())?;
    let blocks = needed(events.len());
    blocks::put_all(base, window, events, blocks, room);
    Ok(blocks)
}
