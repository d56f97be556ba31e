// A line of the bench console as a call: the commands, each with its words and limits; and which lines say nothing
// (docs/CONSOLE.md).
#![tactic(auto)]

ghost use Rattle.std.specs.Prelude.{◌≡◌};
ghost use Rattle.script.specs.Calls.{no_call, given, alone, with_one, with_two, with_more, call_of};
ghost use Rattle.script.specs.Silent.{silent};

use forms::numbers::{decimal, hexadecimal};
use forms::pairs::byte_count;
use pair_words::pairs_behind;
use words::{first, is, rest, spaced};

// What is called. `Error` is for a line that is no call.
#[derive(Clone, Copy)]
pub enum Command {
    New,
    Lend,
    Read,
    Write,
    Line,
    Grant,
    Frame,
    Burst,
    Send,
    Run,
    Tick,
    Show,
    Ring,
    Poke,
    Peek,
    Check,
    State,
    Counters,
    Error,
}

// A command with its numbers in the line's order, 0 where it takes fewer. Bytes stay in the line, and their number stands
// here; of `burst` the pairs stay there, and theirs does.
#[derive(Clone, Copy)]
pub struct Call {
    pub command: Command,
    pub a: u32,
    pub b: u32,
}

// The greatest number of 8 decimal digits: no limit of its own.
const ANY: u32 = 99_999_999;

// Bytes of memory: the greatest window, and eight to lend too much.
const MEMORY: u32 = 65_544;

// The largest output, and the most bytes that one call shows.
const ROOM: u32 = 65_536;

// The longest answer list of a burst.
const ANSWERS: u32 = 66;

fn no_call() -> Call
    ensures { result ≡ no_call }
{
    Call {
        command: Command::Error,
        a: 0,
        b: 0,
    }
}

// A command with its numbers, if each is right.
fn given(command: Command, a: Option<u32>, b: Option<u32>) -> Call
    ensures { result ≡ given command a b }
{
    let Some(x) = a else {
        return no_call();
    };
    let Some(y) = b else {
        return no_call();
    };
    Call {
        command,
        a: x,
        b: y,
    }
}

// A line of one word.
fn alone(name: &[u8]) -> Call
    ensures { result ≡ alone name.now }
{
    let none = Some(0);
    if is(name, b"line") {
        return given(Command::Line, none, none);
    }
    if is(name, b"tick") {
        return given(Command::Tick, none, none);
    }
    if is(name, b"check") {
        return given(Command::Check, none, none);
    }
    if is(name, b"state") {
        return given(Command::State, none, none);
    }
    if is(name, b"counters") {
        return given(Command::Counters, none, none);
    }
    no_call()
}

// A line of two.
fn with_one(name: &[u8], a: &[u8]) -> Call
    ensures { result ≡ with_one name.now a.now }
{
    let none = Some(0);
    if is(name, b"lend") {
        return given(Command::Lend, decimal(a, MEMORY), none);
    }
    if is(name, b"read") {
        return given(Command::Read, hexadecimal(a), none);
    }
    if is(name, b"grant") {
        return given(Command::Grant, hexadecimal(a), none);
    }
    if is(name, b"frame") {
        return given(Command::Frame, byte_count(a), none);
    }
    if is(name, b"send") {
        return given(Command::Send, decimal(a, ROOM), none);
    }
    if is(name, b"show") {
        return given(Command::Show, hexadecimal(a), none);
    }
    no_call()
}

// A line of three.
fn with_two(name: &[u8], a: &[u8], b: &[u8]) -> Call
    ensures { result ≡ with_two name.now a.now b.now }
{
    if is(name, b"new") {
        return given(Command::New, hexadecimal(a), decimal(b, ANY));
    }
    if is(name, b"write") {
        return given(Command::Write, hexadecimal(a), hexadecimal(b));
    }
    if is(name, b"run") {
        return given(Command::Run, decimal(a, ANY), decimal(b, ROOM));
    }
    if is(name, b"ring") {
        return given(Command::Ring, decimal(a, ANY), hexadecimal(b));
    }
    if is(name, b"poke") {
        return given(Command::Poke, hexadecimal(a), byte_count(b));
    }
    if is(name, b"peek") {
        return given(Command::Peek, hexadecimal(a), decimal(b, ROOM));
    }
    no_call()
}

// A line of three or more.
fn with_more(name: &[u8], a: &[u8], words: &[u8]) -> Call
    ensures { result ≡ with_more name.now a.now words.now }
{
    if is(name, b"burst") {
        return given(Command::Burst, decimal(a, ANSWERS), pairs_behind(words));
    }
    if spaced(words) {
        return no_call();
    }
    with_two(name, a, words)
}

// A line that says nothing: an empty one, or a comment.
pub fn silent(line: &[u8]) -> bool
    ensures { result ≡ silent line.now }
{
    line.is_empty() || line[0] == b'#'
}

// The call that a line names.
pub fn call_of(line: &[u8]) -> Call
    ensures { result ≡ call_of line.now }
{
    if 4096 < line.len() {
        return no_call();
    }
    if !spaced(line) {
        return alone(line);
    }
    let behind = rest(line);
    if !spaced(behind) {
        return with_one(first(line), behind);
    }
    with_more(first(line), first(behind), rest(behind))
}
