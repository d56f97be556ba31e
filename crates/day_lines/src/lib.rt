// The first lines of a replayed day and the last, and how lines are written as they come (docs/TRACE.md, "replay"): a day may have
// millions of events, and no list of answers is kept. What the system's calls do is assumed; proved is what the contracts say.
#![tactic(auto)]

ghost use Rattle.std.specs.Prelude.{◌≡◌, ◌≤◌};
ghost use Rattle.day_lines.specs.Opening.{opened, opening};

use enet::Enet;

// Text that waits to be written.
pub const TEXT: usize = 65_536;

// So much may wait before a line: the longest is that of a send, with the digits of 1,518 bytes.
pub const MOST: usize = TEXT - 4096;

// How far a day is: the device, and how much text waits to be written.
#[derive(Clone, Copy)]
pub struct Day {
    pub device: Enet,
    pub waiting: usize,
}

// Writes what waits where it is more than `most`, and answers how much waits then.
pub fn write_past<P: Print>(rt: &P, most: usize, text: &[u8], waiting: usize) -> usize
    ensures { result ≤ most }
{
    if waiting <= most {
        return waiting;
    }
    let _ = rt.write_all(memory::part(text, 0, waiting));
    0
}

// Writes the line of a refusal. Nothing waits behind it.
pub fn refused<P: Print>(rt: &P, number: u32, block: usize, text: &mut [u8]) -> usize
    ensures { result ≡ 0 }
{
    let line = day_reports::refused(text, 0, number, block as u64);
    write_past(rt, 0, text, line)
}

// The first line, and a new bench.
pub fn begun(base: u32, window: u32, text: &mut [u8]) -> Day
    ensures { opened result text.new ≡ opening base window text.old }
{
    let device = Enet::new(base, window).device;
    let waiting = day_reports::placed(text, 0, b"window", base, window as u64);
    Day { device, waiting }
}

// Writes the last lines, with the memory that the check is of. Nothing waits behind them.
pub fn ended<P: Print>(rt: &P, day: Day, memory: &[u8], text: &mut [u8]) -> usize
    ensures { result ≡ 0 }
{
    let device = day.device;
    let waiting = write_past(rt, MOST, text, day.waiting);
    let end = queries::state(device, text, waiting);
    let end = peeking::check(device, memory, text, end);
    write_past(rt, 0, text, end)
}
