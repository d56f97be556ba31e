// The calls of the device that send from the memory that it is lent. Each writes its line.
#![tactic(auto)]

ghost use Rattle.std.specs.Prelude.{◌≡◌};
ghost use Rattle.commands.specs.Answers.{given, tells};
ghost use Rattle.commands.specs.Commands.{output, send, run};

use commands::{Console, Told};

// The length of the largest output.
const LARGEST: usize = 65536;

pub fn send(console: Console, room: u32, memory: &mut [u8], text: &mut [u8], at: usize) -> Told
    ensures { given result memory.new text.new ≡ tells (send console memory.old (output room)) text.old at }
{
    let mut all = [0; LARGEST];
    let k = commands::within(room as usize, LARGEST);
    let n = commands::within(console.lent, memory.len());
    let out = &mut all[..k];
    let s = console.device.send(&mut memory[..n], out);
    let end = reports::shown(text, at, b"send", s.number, memory::part(out, 0, s.count));
    commands::next(console, s.device, end)
}

pub fn run(
    console: Console,
    allowance: u32,
    room: u32,
    memory: &mut [u8],
    text: &mut [u8],
    at: usize,
) -> Told
    ensures { given result memory.new text.new ≡ tells (run console memory.old allowance (output room)) text.old at }
{
    let mut all = [0; LARGEST];
    let k = commands::within(room as usize, LARGEST);
    let n = commands::within(console.lent, memory.len());
    let out = &mut all[..k];
    let r = console.device.run(&mut memory[..n], out, allowance);
    let sent = memory::part(out, 0, r.count);
    let end = long_reports::ran(text, at, b"run", r.number, r.steps, r.count, sent);
    commands::next(console, r.device, end)
}
