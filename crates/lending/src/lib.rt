// The calls of the device over the memory that it is lent. Each writes its line.
#![tactic(auto)]

ghost use Rattle.std.specs.Prelude.{◌≡◌, length};
ghost use Rattle.forms.specs.Pairs.{named};
ghost use Rattle.text.specs.Text.{written, put};
ghost use Rattle.commands.specs.Answers.{given, tells, with_device};
ghost use Rattle.commands.specs.Commands.{grant, frame, tick};
ghost use Rattle.replies.specs.Replies.{numbered};

use commands::{Console, Told};
use enet::Answered;
use forms::pairs;

// The next device, and the line of a call that answers a number alone.
pub fn answered(console: Console, a: Answered, name: &[u8], text: &mut [u8], at: usize) -> Told
    ensures { (result.console ≡ with_device console a.device) × (written result.end text.new ≡ put text.old at (numbered name.now a.number)) }
{
    let end = replies::numbered(text, at, name, u64::from(a.number));
    commands::next(console, a.device, end)
}

pub fn grant(console: Console, address: u32, memory: &mut [u8], text: &mut [u8], at: usize) -> Told
    ensures { given result memory.new text.new ≡ tells (grant console memory.old address) text.old at }
{
    let n = commands::within(console.lent, memory.len());
    let a = console.device.grant(&mut memory[..n], address);
    answered(console, a, b"grant", text, at)
}

pub fn frame(console: Console, word: &[u8], memory: &mut [u8], text: &mut [u8], at: usize) -> Told
    ensures { given result memory.new text.new ≡ tells (frame console memory.old (named word.now)) text.old at }
{
    // Room for the bytes that a line names.
    let mut bytes = [0; 2048];
    let n = pairs::decode(word, &mut bytes);
    let k = commands::within(console.lent, memory.len());
    let a = console
        .device
        .receive(&mut memory[..k], memory::part(&bytes, 0, n));
    answered(console, a, b"frame", text, at)
}

// A tick looks at what is lent, and writes none of it.
pub fn tick(console: Console, memory: &[u8], text: &mut [u8], at: usize) -> Told
    ensures { given result memory.now text.new ≡ tells (tick console memory.now) text.old at }
{
    let a = console.device.tick(memory::part(memory, 0, console.lent));
    answered(console, a, b"tick", text, at)
}
