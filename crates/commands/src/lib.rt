// What the bench console's commands do and write, as definitions (specs/, in the order of docs/CONSOLE.md), the console's
// state, its next state, and how much of a buffer a command has. The code stands in the crates above: queries, peeking, poking,
// lending, outgoing, bursting, asking, acting, console.
#![tactic(auto)]

ghost use Rattle.std.specs.Prelude.{◌≡◌, min};
ghost use Rattle.commands.specs.Answers.{with_device};

use enet::Enet;

// The device, how much of the memory is lent to it, and how many lines have ended.
#[derive(Clone, Copy)]
pub struct Console {
    pub device: Enet,
    pub lent: usize,
    pub lines: u64,
}

// The next console, and where the text in the lent buffer ends.
#[derive(Clone, Copy)]
pub struct Told {
    pub console: Console,
    pub end: usize,
}

// n, or all of a buffer's length where that is less.
pub fn within(n: usize, length: usize) -> usize
    ensures { result ≡ min n length }
{
    n.min(length)
}

// The next console after a call of the device, which gave back the next device.
pub fn next(console: Console, device: Enet, end: usize) -> Told
    ensures { result ≡ record { console = with_device console device; end = end } }
{
    Told {
        console: Console {
            device,
            lent: console.lent,
            lines: console.lines,
        },
        end,
    }
}
