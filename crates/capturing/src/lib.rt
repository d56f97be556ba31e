// A recorded day played, with the frames that it delivers and sends put into a list of frames with their times (docs/CAPTURE.md,
// "export_capture").
#![tactic(auto)]

ghost use Rattle.std.specs.Prelude.{◌≡◌, drop};
ghost use Rattle.event.specs.Front.{front, found};
ghost use Rattle.event.specs.Walk.{walk};
ghost use Rattle.capturing.specs.Capturing.{kept, keep, keep_found, capturing, next, capture_all, begun};

use enet::Enet;
use event::Found;

// How far a list is: the bytes of its entries, and whether one had no room. Then nothing is put behind them any more.
#[derive(Clone, Copy)]
pub struct Kept {
    pub bytes: usize,
    pub full: bool,
}

// How far a day is: the device, and the list.
#[derive(Clone, Copy)]
pub struct Day {
    pub device: Enet,
    pub kept: Kept,
}

// Puts the frame of event i into the list, if its call answered 0.
fn keep(before: Kept, number: u32, i: usize, frame: &[u8], list: &mut [u8]) -> Kept
    ensures { kept result list.new ≡ keep (kept before list.old) number i frame.now }
{
    if number != 0 {
        return before;
    }
    if before.full {
        return before;
    }
    match pcap_list::put(list, before.bytes, i / 1_000_000, i % 1_000_000, frame) {
        Some(end) => Kept {
            bytes: end,
            full: false,
        },
        None => Kept {
            bytes: before.bytes,
            full: true,
        },
    }
}

// The frame of an event, found in the list of events, into the list of frames.
fn keep_found(
    before: Kept,
    found: Found,
    number: u32,
    i: usize,
    events: &[u8],
    sent: &[u8],
    list: &mut [u8],
) -> Kept
    ensures { kept result list.new ≡ keep_found (kept before list.old) i events.now found number sent.now }
{
    match found {
        Found::RegisterWrite(_, _) => before,
        Found::Grant(_) => before,
        Found::Frame(start, n) => keep(before, number, i, memory::part(events, start, n), list),
        Found::Send => keep(before, number, i, sent, list),
        Found::Cut => before,
        Found::NoEvent => before,
    }
}

// The event at a place, number i, and its frame into the list.
fn event(
    day: Day,
    events: &[u8],
    place: usize,
    i: usize,
    memory: &mut [u8],
    output: &mut [u8],
    list: &mut [u8],
) -> Day
    ensures { capturing result memory.new output.new list.new ≡ next (capturing day memory.old output.old list.old) i events.now (found place (front (drop place events.now))) }
{
    let found = event::at(events, place);
    let acted = playback::act(day.device, memory, output, events, found);
    let sent = memory::part(output, 0, acted.count);
    let before = day.kept;
    let kept = keep_found(before, found, acted.number, i, events, sent, list);
    let device = acted.device;
    Day { device, kept }
}

// All events of a list, one behind the other.
fn all(begun: Day, events: &[u8], memory: &mut [u8], output: &mut [u8], list: &mut [u8]) -> Day
    ensures { capturing result memory.new output.new list.new ≡ capture_all (capturing begun memory.old output.old list.old) 0 (walk events.now).events }
{
    let mut day = begun;
    let mut place = 0;
    let mut i = 0;
    let mut n = event::size_at(events, 0);
    while n != 0 {
        day = event(day, events, place, i, memory, output, list);
        place += n;
        i += 1;
        n = event::size_at(events, place);
    }
    day
}

// All events of a list on a new bench.
pub fn capture(
    base: u32,
    window: u32,
    events: &[u8],
    memory: &mut [u8],
    output: &mut [u8],
    list: &mut [u8],
) -> Day
    ensures { capturing result memory.new output.new list.new ≡ capture_all (begun base window memory.old output.old list.old) 0 (walk events.now).events }
{
    let made = Enet::new(base, window);
    let device = made.device;
    let kept = Kept {
        bytes: 0,
        full: false,
    };
    let begun = Day { device, kept };
    all(begun, events, memory, output, list)
}
