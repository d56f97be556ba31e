// The lines that tell of a recorded day (docs/TRACE.md).
#![tactic(auto)]

ghost use Rattle.std.specs.Prelude.{◌≡◌};
ghost use Rattle.text.specs.Text.{written, put};
ghost use Rattle.day_reports.specs.DayReports.{placed, counted, refusal_says, event_says};

use event::Found;

// A name, a value and a number.
pub fn placed(text: &mut [u8], at: usize, name: &[u8], v: u32, n: u64) -> usize
    ensures { written result text.new ≡ put text.old at (placed name.now v n) }
{
    let end = text::put(text, at, name);
    let end = fields::value(text, end, v);
    let end = fields::number(text, end, n);
    text::character(text, end, b'\n')
}

// A name and two numbers.
pub fn counted(text: &mut [u8], at: usize, name: &[u8], a: u64, b: u64) -> usize
    ensures { written result text.new ≡ put text.old at (counted name.now a b) }
{
    let end = text::put(text, at, name);
    let end = fields::number(text, end, a);
    let end = fields::number(text, end, b);
    text::character(text, end, b'\n')
}

// A refusal: with its block where the reason is a block's.
pub fn refused(text: &mut [u8], at: usize, number: u32, block: u64) -> usize
    ensures { written result text.new ≡ put text.old at (refusal_says number block) }
{
    if number <= answer::EVENT {
        return counted(text, at, b"refused", number as u64, block);
    }
    replies::numbered(text, at, b"refused", number as u64)
}

// What an event answered, and the bytes that it sent.
#[tactic(auto, unfolding(crate::specs::DayReports::event_says))]
pub fn event(text: &mut [u8], at: usize, found: Found, number: u32, sent: &[u8]) -> usize
    ensures { written result text.new ≡ put text.old at (event_says found number sent.now) }
{
    match found {
        Found::RegisterWrite(_, _) => replies::numbered(text, at, b"write", number as u64),
        Found::Grant(_) => replies::numbered(text, at, b"grant", number as u64),
        Found::Frame(_, _) => replies::numbered(text, at, b"frame", number as u64),
        Found::Send => reports::shown(text, at, b"send", number, sent),
        Found::Cut | Found::NoEvent => text::put(text, at, b""),
    }
}
