// The bench console (docs/CONSOLE.md): one line is answered by one line, in a buffer that the caller lends.
#![tactic(auto)]

ghost use Rattle.std.specs.Prelude.{◌≡◌};
ghost use Rattle.commands.specs.Answers.{given, tells};
ghost use Rattle.commands.specs.Answering.{reset, answer_to, counted, answer};

use commands::{Console, Told};
use enet::Enet;
use kinds::Kind;
use script::Command;

// Before the first `new` the bench is that of a window not allowed, and nothing is lent.
pub fn reset() -> Console
    ensures { result ≡ reset }
{
    Console {
        device: Enet::reset(),
        lent: 0,
        lines: 0,
    }
}

// One line more has ended.
pub fn counted(mut console: Console) -> Console
    ensures { result ≡ counted console }
{
    console.lines = std::num::wrapping_add_u64(console.lines, 1);
    console
}

// Makes a call.
fn make(
    console: Console,
    command: Command,
    a: u32,
    b: u32,
    memory: &mut [u8],
    line: &[u8],
    text: &mut [u8],
    at: usize,
) -> Told
    ensures { given result memory.new text.new ≡ tells (answer_to command console memory.old a b line.now) text.old at }
{
    match kinds::kind_of(command) {
        Kind::Asks(query) => asking::told(console, query, a, b, memory, text, at),
        Kind::Acts(act) => acting::acted(console, act, a, b, memory, line, text, at),
    }
}

// Answers one line, without its line feed.
pub fn answer(console: Console, memory: &mut [u8], line: &[u8], text: &mut [u8], at: usize) -> Told
    ensures { given result memory.new text.new ≡ tells (answer console memory.old line.now) text.old at }
{
    let console = counted(console);
    if script::silent(line) {
        let end = commands::within(at, text.len());
        return Told { console, end };
    }
    let call = script::call_of(line);
    let command = call.command;
    make(console, command, call.a, call.b, memory, line, text, at)
}
