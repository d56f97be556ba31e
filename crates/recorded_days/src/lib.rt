// A recorded day as programs take it: the files that their first two arguments name, the trace and the memory image (docs/TRACE.md).
#![tactic(auto)]

ghost use Rattle.std.specs.Prelude.{◌≤◌, ◌≡◌, length, IfSome};
ghost use Rattle.trace.specs.Reading.{summary_of, reading_of};
ghost use Rattle.recorded_days.specs.Read.{read_loaded};

use answer::Refusal;
use std::rt::{Env, Files};
use stream::Refused;
use trace::Summary;

// What was read of both files: how many bytes of the trace are at its buffer's front and whether it has more, and
// how many bytes of the memory image are at the front of its own.
#[derive(Clone, Copy)]
pub struct Loaded {
    pub trace: usize,
    pub more: bool,
    pub memory: usize,
}

// Reads both files, or says of the first that cannot be read that it cannot: `error NAME`. Of the image as much is taken as has room.
pub fn load<R: Env + Files + Print>(rt: &R, trace: &mut [u8], memory: &mut [u8]) -> Option<Loaded>
    ensures { IfSome result (λ l. (l.trace ≤ length trace.new) × (l.memory ≤ length memory.new)) }
{
    let read = files::load(rt, 1, trace)?;
    let image = files::load(rt, 2, memory)?;
    Some(Loaded {
        trace: read.count,
        more: read.more,
        memory: image.count,
    })
}

// What the trace says, and its events at the front of the room.
pub fn read(loaded: Loaded, trace: &[u8], events: &mut [u8]) -> Result<Summary, Refused>
    ensures { reading_of (summary_of result) events.new ≡ read_loaded loaded trace.now events.old }
{
    if loaded.more {
        return Err(Refused {
            refusal: Refusal::EventRoom,
            block: 0,
        });
    }
    trace::read(memory::part(trace, 0, loaded.trace), events)
}
