// The firmware's reads of the window, whatever is lent. Each writes its line.
#![tactic(auto)]

ghost use Rattle.std.specs.Prelude.{◌≡◌};
ghost use Rattle.text.specs.Text.{written, put};
ghost use Rattle.commands.specs.Commands.{peek_says, check_says};

use enet::Enet;

#[tactic(auto, unfolding(commands::specs::Commands::peek_says))]
pub fn peek(device: Enet, address: u32, n: u32, memory: &[u8], text: &mut [u8], at: usize) -> usize
    ensures { written result text.new ≡ put text.old at (peek_says device memory.now address n) }
{
    let window = device.whole_window();
    if !window.holds(address, n) {
        return replies::said(text, at, b"peek outside");
    }
    let from = window.offset(address);
    reports::held(text, at, b"peek", memory::part(memory, from, n as usize))
}

pub fn check(device: Enet, memory: &[u8], text: &mut [u8], at: usize) -> usize
    ensures { written result text.new ≡ put text.old at (check_says device memory.now) }
{
    let window = memory::part(memory, 0, device.window as usize);
    replies::valued(text, at, b"check", fcs::check_number(window))
}
