// A console script as a recorded day, line by line (docs/TRACE.md, "record"): the window, the memory image and the event list.
#![tactic(auto)]

mod events;
mod firmware;
mod steps;

ghost use Rattle.std.specs.Prelude.{◌≡◌};
ghost use Rattle.recording.specs.Day.{begin, more, counted, failed, new};
ghost use Rattle.recording.specs.Recording.{recorded, first, later, take};

use steps::Step;
use window::Window;

// A recorded day so far. Its bytes stand in the caller's image and event list.
#[derive(Clone, Copy)]
pub struct Day {
    // Whether there is a window,
    pub begun: bool,
    // and which.
    pub base: u32,
    pub window: u32,
    // The bytes of the event list,
    pub bytes: usize,
    // and its events, those without room too.
    pub events: u64,
    // Lines so far,
    pub lines: u64,
    // the first wrong one, 0 where none is,
    pub wrong: u64,
    // and whether an event had no room.
    pub full: bool,
}

// Before the first line.
pub fn begin() -> Day
    ensures { result ≡ begin }
{
    Day {
        begun: false,
        base: 0,
        window: 0,
        bytes: 0,
        events: 0,
        lines: 0,
        wrong: 0,
        full: false,
    }
}

// One more, as far as the number goes.
pub(crate) fn more(n: u64) -> u64
    ensures { result ≡ more n }
{
    if n < u64::MAX {
        return n + 1;
    }
    n
}

// One line more.
fn counted(mut day: Day) -> Day
    ensures { result ≡ counted day }
{
    day.lines = more(day.lines);
    day
}

// This line is wrong.
pub(crate) fn failed(mut day: Day) -> Day
    ensures { result ≡ failed day }
{
    day.wrong = day.lines;
    day
}

// The window of `new`.
#[tactic(auto, unfolding(crate::specs::Day::new))]
fn new(mut day: Day, base: u32, window: u32) -> Day
    ensures { result ≡ new day base window }
{
    let seen = Window {
        base,
        length: window,
    };
    if !seen.allowed() {
        return failed(day);
    }
    day.begun = true;
    day.base = base;
    day.window = window;
    day
}

// The first line that says something.
fn first(day: Day, step: Step, a: u32, b: u32) -> Day
    ensures { result ≡ first step day a b }
{
    match step {
        Step::New => new(day, a, b),
        Step::Poke => failed(day),
        Step::Write => failed(day),
        Step::Grant => failed(day),
        Step::Frame => failed(day),
        Step::Send => failed(day),
        Step::Other => failed(day),
    }
}

// A line behind it.
fn later(
    day: Day,
    step: Step,
    a: u32,
    b: u32,
    line: &[u8],
    image: &mut [u8],
    list: &mut [u8],
) -> Day
    ensures { recorded result image.new list.new ≡ later step day image.old list.old a b line.now }
{
    match step {
        Step::New => failed(day),
        Step::Poke => firmware::poke(day, a, words::rest(words::rest(line)), image),
        Step::Write => events::write(day, a, b, list),
        Step::Grant => events::grant(day, a, list),
        Step::Frame => events::frame(day, words::rest(line), list),
        Step::Send => events::send(day, a, list),
        Step::Other => failed(day),
    }
}

// Takes a line, without its line feed.
pub fn take(day: Day, line: &[u8], image: &mut [u8], list: &mut [u8]) -> Day
    ensures { recorded result image.new list.new ≡ take day image.old list.old line.now }
{
    let next = counted(day);
    if script::silent(line) {
        return next;
    }
    if day.wrong != 0 {
        return next;
    }
    let call = script::call_of(line);
    let command = call.command;
    let step = steps::step_of(command);
    if next.begun {
        return later(next, step, call.a, call.b, line, image, list);
    }
    first(next, step, call.a, call.b)
}
