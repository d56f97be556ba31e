// What the rounds that the benchmark times share: the bench that they begin with, and the count of what was done.
#![tactic(auto)]

ghost use Rattle.std.specs.Prelude.{◌≡◌, ◌≤◌};
ghost use Rattle.timing.specs.Timing.{waiting, bench, passed};

use enet::Enet;
use registers::Registers;

// A bench whose engines will both start at address 0, with polling.
fn waiting(window: u32) -> Enet
    ensures { result ≡ waiting window }
{
    let a = Enet::new(0, window).device;
    let b = a.write(Registers::MAH, 0x100).device;
    let c = b.write(Registers::MAL, 2).device;
    let d = c.write(Registers::RXNDAR, 1).device;
    d.write(Registers::TXNDAR, 1).device
}

// The same with both engines started.
pub fn bench(window: u32) -> Enet
    ensures { result ≡ bench window }
{
    let a = waiting(window);
    let b = a.write(Registers::RXSTR, 5).device;
    b.write(Registers::TXSTR, 5).device
}

// 1 for an answer 0. That it is at most 1 is said for the callers' sums.
pub fn passed(number: u32) -> u32
    ensures { (result ≡ passed number) × (result ≤ 1) }
{
    if number == answer::DONE { 1 } else { 0 }
}
