// The send time-out (02, Wish 9): a tick, and what a register write does to the count of ticks.
#![tactic(auto)]

ghost use Rattle.std.specs.Prelude.{◌≡◌};
ghost use Rattle.ticking.specs.Tick.{leaves, stalled, counted, tick, after_write};

use answer::Refusal;
use registers::Registers;
use window::Window;

// A number of the table, and the registers and the count that a tick leaves.
#[derive(Clone, Copy)]
pub struct Ticked {
    pub number: u32,
    pub registers: Registers,
    pub count: u32,
}

impl Ticked {
    // A tick that is not refused.
    fn done(registers: Registers, count: u32) -> Ticked
        ensures { result ≡ leaves 0 registers count }
    {
        Ticked {
            number: answer::DONE,
            registers,
            count,
        }
    }
}

// Sending runs, and its descriptor lies in the window and is granted.
#[tactic(auto, unfolding(crate::specs::Tick::stalled))]
fn stalled(window: Window, r: Registers, m: &[u8]) -> bool
    ensures { result ≡ stalled window.base window.length r m.now }
{
    let tx = r.tx;
    tx.running && window.holds(tx.place, 16) && packet_status::granted(window, m, tx.place)
}

// One tick more. A count that has reached the value would pass it.
#[tactic(auto, unfolding(crate::specs::Tick::counted))]
fn counted(mut r: Registers, count: u32) -> Ticked
    ensures { result ≡ counted r count }
{
    if count < r.txtor {
        return Ticked::done(r, count + 1);
    }
    r.isr |= Registers::TX_TO;
    Ticked::done(r, 0)
}

// A tick, or the refusal 11.
#[tactic(auto, unfolding(crate::specs::Tick::tick))]
pub fn tick(window: Window, r: Registers, count: u32, m: &[u8]) -> Ticked
    ensures { result ≡ tick window.base window.length r count m.now }
{
    if !window.lent(m) {
        return Ticked {
            number: u32::from(Refusal::LentLength),
            registers: r,
            count,
        };
    }
    if r.txtor != 0 && stalled(window, r, m) {
        return counted(r, count);
    }
    Ticked::done(r, 0)
}

// The count after a register write: its number, the offset written, and the value of the time-out register behind it.
#[tactic(auto, unfolding(crate::specs::Tick::after_write))]
pub fn after_write(number: u32, offset: u32, value: u32, count: u32) -> u32
    ensures { result ≡ after_write number offset value count }
{
    if number == answer::DONE && offset == Registers::TXTOR && value == 0 {
        return 0;
    }
    count
}
