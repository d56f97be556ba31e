// The console's calls that change the bench or what is lent, by name.
#![tactic(auto)]

ghost use Rattle.std.specs.Prelude.{◌≡◌};
ghost use Rattle.words.specs.Words.{characters};
ghost use Rattle.text.specs.Text.{written, put};
ghost use Rattle.replies.specs.Replies.{said, numbered};
ghost use Rattle.enet.specs.Device.{new as new_bench};
ghost use Rattle.commands.specs.Answers.{with_bench, given, tells};
ghost use Rattle.acting.specs.Acts.{acts};

use commands::{Console, Told};
use enet::Enet;
use kinds::Act;

// Lends another length.
fn lend(mut console: Console, n: u32, text: &mut [u8], at: usize) -> Told
    ensures { (result.console ≡ record { device = console.device; lent = n; lines = console.lines }) × (written result.end text.new ≡ put text.old at (said (characters "lend"))) }
{
    console.lent = n as usize;
    let end = replies::said(text, at, b"lend");
    Told { console, end }
}

// A new bench, whose window is lent.
fn new(mut console: Console, base: u32, length: u32, text: &mut [u8], at: usize) -> Told
    ensures console_value { result.console ≡ with_bench console (new_bench base length) }
    ensures text_after { written result.end text.new ≡ put text.old at (numbered (characters "new") (new_bench base length).number) }
{
    let a = Enet::new(base, length);
    let device = a.device;
    console.lent = device.window as usize;
    lending::answered(console, a, b"new", text, at)
}

// Makes one of them.
pub fn acted(
    console: Console,
    act: Act,
    a: u32,
    b: u32,
    memory: &mut [u8],
    line: &[u8],
    text: &mut [u8],
    at: usize,
) -> Told
    ensures { given result memory.new text.new ≡ tells (acts act console memory.old a b line.now) text.old at }
{
    match act {
        Act::New => {
            poking::clear(memory);
            new(console, a, b, text, at)
        }
        Act::Lend => lend(console, a, text, at),
        Act::Write => lending::answered(console, console.device.write(a, b), b"write", text, at),
        Act::Grant => lending::grant(console, a, memory, text, at),
        Act::Frame => lending::frame(console, words::rest(line), memory, text, at),
        Act::Burst => bursting::burst(console, a, b, line, memory, text, at),
        Act::Send => outgoing::send(console, a, memory, text, at),
        Act::Run => outgoing::run(console, a, b, memory, text, at),
        Act::Tick => lending::tick(console, memory, text, at),
        Act::Poke => {
            let word = words::rest(words::rest(line));
            poking::poke(console, a, word, memory, text, at)
        }
    }
}
