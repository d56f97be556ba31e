// The calls that look at the device. Each writes its line.
#![tactic(auto)]

ghost use Rattle.std.specs.Prelude.{◌≡◌};
ghost use Rattle.text.specs.Text.{written, put};
ghost use Rattle.commands.specs.Commands.{read_says, line_says, show_says, ring_says, state_says, counters_say};

use enet::Enet;

pub fn read(device: Enet, offset: u32, text: &mut [u8], at: usize) -> usize
    ensures { written result text.new ≡ put text.old at (read_says device offset) }
{
    let a = device.read(offset);
    reports::read(text, at, b"read", a.number, a.value)
}

pub fn line(device: Enet, text: &mut [u8], at: usize) -> usize
    ensures { written result text.new ≡ put text.old at (line_says device) }
{
    replies::either(text, at, device.interrupt_line(), b"line 1", b"line 0")
}

pub fn show(device: Enet, address: u32, lent: &[u8], text: &mut [u8], at: usize) -> usize
    ensures { written result text.new ≡ put text.old at (show_says device lent.now address) }
{
    let number = device.reading_number(lent, address);
    reports::shown(text, at, b"show", number, device.reading(lent, address))
}

pub fn ring(
    device: Enet,
    count: u32,
    address: u32,
    lent: &[u8],
    text: &mut [u8],
    at: usize,
) -> usize
    ensures { written result text.new ≡ put text.old at (ring_says device lent.now count address) }
{
    let sound = device.sound_ring(lent, count, address);
    replies::either(text, at, sound, b"ring yes", b"ring no")
}

pub fn state(device: Enet, text: &mut [u8], at: usize) -> usize
    ensures { written result text.new ≡ put text.old at (state_says device) }
{
    let registers = device.registers;
    let rx = registers.rx;
    let tx = registers.tx;
    long_reports::engines(
        text, at, b"state", rx.running, rx.place, tx.running, tx.place,
    )
}

pub fn counters(device: Enet, text: &mut [u8], at: usize) -> usize
    ensures { written result text.new ≡ put text.old at (counters_say device) }
{
    let c = device.counters;
    list_reports::listed(
        text,
        at,
        b"counters",
        c.delivered,
        &[c.lost, c.sent, c.ticks],
    )
}
