// The firmware's writes to the window, whatever is lent.
#![tactic(auto)]

ghost use Rattle.std.specs.Prelude.{◌≡◌, length, ◌≤◌};
ghost use Rattle.std.specs.Prelude.{if◌then◌else◌};
ghost use Rattle.memory.specs.Memory.{store};
ghost use Rattle.window.specs.Window.{in_window, offset};
ghost use Rattle.forms.specs.Pairs.{named};
ghost use Rattle.commands.specs.Answers.{given, tells};
ghost use Rattle.commands.specs.Commands.{zeros, poke};

use commands::{Console, Told};
use enet::Enet;
use forms::pairs;

// All zero.
pub fn clear(memory: &mut [u8])
    ensures { memory.new ≡ zeros (length memory.old) }
{
    memory.fill(0);
}

// Stores bytes where the window has all of them, and answers whether it has.
fn stored(device: Enet, address: u32, s: &[u8], memory: &mut [u8]) -> bool
    requires { length s.now ≤ 2048 }
    ensures { (result ≡ in_window device.base device.window address (length s.now)) × (memory.new ≡ (if result then store memory.old (offset device.base address) s.now else memory.old)) }
{
    let window = device.whole_window();
    if !window.holds(address, s.len() as u32) {
        return false;
    }
    let from = window.offset(address);
    memory::store(memory, from, s);
    true
}

pub fn poke(
    console: Console,
    address: u32,
    word: &[u8],
    memory: &mut [u8],
    text: &mut [u8],
    at: usize,
) -> Told
    ensures { given result memory.new text.new ≡ tells (poke console memory.old address (named word.now)) text.old at }
{
    // Room for the bytes that a line names.
    let mut bytes = [0; 2048];
    let n = pairs::decode(word, &mut bytes);
    let inside = stored(console.device, address, memory::part(&bytes, 0, n), memory);
    let end = replies::either(text, at, inside, b"poke ok", b"poke outside");
    Told { console, end }
}
