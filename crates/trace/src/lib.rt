// A trace read: the window and the events, or the first bad block with its reason (02, Wish 4).
#![tactic(auto)]

mod scattered;

ghost use Rattle.std.specs.Prelude.{◌+◌, ◌^◌, ◌≤◌, ◌<◌, ◌≡◌, length};
ghost use Rattle.answer.specs.declared.Refusal.TheVariants.{Event};
ghost use Rattle.memory.specs.Memory.{word};
ghost use Rattle.block.specs.Fields.{half};
ghost use Rattle.event.specs.Walk.{walk, counted};
ghost use Rattle.stream.specs.Blocks.{block_count, first_fault, fault_of, Sound};
ghost use Rattle.stream.specs.Stream.{stream, header_length, events_of};
ghost use Rattle.trace.specs.Judge.{header_fault};
ghost use Rattle.trace.specs.Passes.{events_fault, bad_of};
ghost use Rattle.trace.specs.Reading.{summary_of, look, reading_of, read};

use answer::Refusal;
use event::{Ending, Walked};
use stream::{HEADER, Refused};
use window::Window;

// What a trace says: the window, how many bytes its events are and how many events.
#[derive(Clone, Copy)]
pub struct Summary {
    pub base: u32,
    pub window: u32,
    pub bytes: usize,
    pub events: usize,
}

// How many bytes of used data the first blocks have, which are sound.
fn end_of(trace: &[u8], good: usize) -> usize
    requires { Sound trace.now good × ((0 < good) × (good ≤ block_count (length trace.now))) }
    ensures { result ≡ length (stream trace.now good) }
{
    504 * (good - 1) + block::used(stream::block_at(trace, good - 1))
}

// The walk along the events of the first blocks, which are sound and have a header.
fn walk_in(trace: &[u8], good: usize) -> Walked
    requires { (Sound trace.now good × ((0 < good) × (good ≤ block_count (length trace.now)))) × (header_length ≤ length (stream trace.now good)) }
    ensures { result ≡ counted (walk (events_of (stream trace.now good))) }
{
    let end = end_of(trace, good);
    let mut place = 0;
    let mut events = 0;
    let mut n = scattered::size(trace, end, HEADER);
    while n != 0 {
        place += n;
        events += 1;
        n = scattered::size(trace, end, HEADER + place);
    }
    Walked {
        place,
        events,
        ending: event::ends(scattered::byte(trace, HEADER + place), end - HEADER - place),
    }
}

// The base address in the header.
fn base_of(trace: &[u8]) -> u32
    ensures { result ≡ word trace.now 4 }
{
    memory::word(trace, 4)
}

// The window's length in the header.
fn window_of(trace: &[u8]) -> u32
    ensures { result ≡ half trace.now 8 + 1 }
{
    memory::byte(trace, 8) as u32 + 256 * memory::byte(trace, 9) as u32 + 1
}

// A header of the first blocks, which are sound, that is cut or has no allowed window.
fn header_fault(trace: &[u8], good: usize) -> bool
    requires { Sound trace.now good × ((0 < good) × (good ≤ block_count (length trace.now))) }
    ensures { result ≡ header_fault (stream trace.now good) }
{
    let window = Window {
        base: base_of(trace),
        length: window_of(trace),
    };
    end_of(trace, good) < HEADER || !window.allowed()
}

// The event fault of a block.
fn bad_event(block: usize) -> Refused
    ensures { result ≡ record { refusal = Event; block = block } }
{
    Refused {
        refusal: Refusal::Event,
        block,
    }
}

// The first bad block, where the header is right: that of a byte no event can have, else the one that is wrong by itself, else
// the last where an event is cut.
fn events_fault(ending: Ending, place: usize, tested: Result<usize, Refused>) -> Result<(), Refused>
    requires { (header_length + place < 2 ^ 64) × (0 < (fault_of tested).block) }
    ensures { bad_of result ≡ events_fault ending place (fault_of tested) }
{
    if let Ending::NoEvent = ending {
        return Err(bad_event((HEADER + place) / 504));
    }
    let blocks = tested?;
    if let Ending::Cut = ending {
        return Err(bad_event(blocks - 1));
    }
    Ok(())
}

// What a trace says to a reader with room for so many bytes. The first blocks, as many as are good by themselves, are tested.
fn look_behind(
    trace: &[u8],
    good: usize,
    tested: Result<usize, Refused>,
    room: usize,
) -> Result<Summary, Refused>
    requires { (fault_of tested ≡ first_fault trace.now 0 (block_count (length trace.now))) × ((good ≡ (fault_of tested).block) × (good ≡ 0 → ⊥)) }
    ensures { summary_of result ≡ look trace.now room }
{
    if header_fault(trace, good) {
        return Err(bad_event(0));
    }
    let walked = walk_in(trace, good);
    events_fault(walked.ending, walked.place, tested)?;
    let bytes = end_of(trace, good) - HEADER;
    if room < bytes {
        return Err(Refused {
            refusal: Refusal::EventRoom,
            block: 0,
        });
    }
    Ok(Summary {
        base: base_of(trace),
        window: window_of(trace),
        bytes,
        events: walked.events,
    })
}

// What a trace says to a reader with room for so many bytes. Two passes find the first bad block: one over the blocks, one along
// the events of those before the first block that is wrong by itself.
pub fn look(trace: &[u8], room: usize) -> Result<Summary, Refused>
    ensures { summary_of result ≡ look trace.now room }
{
    let tested = stream::first_fault(trace);
    match tested {
        Ok(blocks) => look_behind(trace, blocks, tested, room),
        Err(refused) if refused.block == 0 => Err(refused),
        Err(refused) => look_behind(trace, refused.block, tested, room),
    }
}

// Reads a trace: what it says, and its events at the front of the room. A refusal leaves the room as it was.
pub fn read(trace: &[u8], room: &mut [u8]) -> Result<Summary, Refused>
    ensures { reading_of (summary_of result) room.new ≡ read trace.now room.old }
{
    let summary = look(trace, room.len())?;
    stream::copy(trace, room);
    Ok(summary)
}
