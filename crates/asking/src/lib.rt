// The console's calls that change nothing, by name.
#![tactic(auto)]

ghost use Rattle.std.specs.Prelude.{◌≡◌};
ghost use Rattle.text.specs.Text.{written, put};
ghost use Rattle.commands.specs.Answers.{answers, given, tells};
ghost use Rattle.asking.specs.Says.{says};

use commands::{Console, Told};
use kinds::Query;

// Writes what one of them says.
fn said(
    console: Console,
    query: Query,
    a: u32,
    b: u32,
    memory: &[u8],
    text: &mut [u8],
    at: usize,
) -> usize
    ensures { written result text.new ≡ put text.old at (says query console memory.now a b) }
{
    match query {
        Query::Read => queries::read(console.device, a, text, at),
        Query::Line => queries::line(console.device, text, at),
        Query::Show => queries::show(
            console.device,
            a,
            memory::part(memory, 0, console.lent),
            text,
            at,
        ),
        Query::Ring => queries::ring(
            console.device,
            a,
            b,
            memory::part(memory, 0, console.lent),
            text,
            at,
        ),
        Query::Peek => peeking::peek(console.device, a, b, memory, text, at),
        Query::Check => peeking::check(console.device, memory, text, at),
        Query::State => queries::state(console.device, text, at),
        Query::Counters => queries::counters(console.device, text, at),
        Query::Error => replies::numbered(text, at, b"error", console.lines),
    }
}

// Answers with what one of them says; console and memory stay.
pub fn told(
    console: Console,
    query: Query,
    a: u32,
    b: u32,
    memory: &[u8],
    text: &mut [u8],
    at: usize,
) -> Told
    ensures { given result memory.now text.new ≡ tells (answers console memory.now (says query console memory.now a b)) text.old at }
{
    let end = said(console, query, a, b, memory, text, at);
    Told { console, end }
}
