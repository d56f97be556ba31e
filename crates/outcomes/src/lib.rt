// What a frame in and a frame out leave of the registers, refused by a number or done.
#![tactic(auto)]

ghost use Rattle.std.specs.Prelude.{◌≡◌};
ghost use Rattle.outcomes.specs.Outcomes.{rx_refused, rx_advanced, tx_refused, tx_advanced};

use registers::Registers;

// After a frame that was refused by a number.
pub fn rx_refused(mut r: Registers, number: u32) -> Registers
    ensures { result ≡ rx_refused number r }
{
    match number {
        answer::CHAIN_FAULT => r.rx = r.rx.stopped(),
        answer::NOT_GRANTED => {
            r.isr |= Registers::PACKET_LOST;
            r.rx = r.rx.not_granted();
        }
        _ => {}
    }
    r
}

// After a delivery: the engine moves on where next-enable is set, and else stops.
pub fn rx_advanced(mut r: Registers, linked: bool, word: u32) -> Registers
    ensures { result ≡ rx_advanced r linked word }
{
    r.isr |= Registers::RX_CURR_DONE;
    if linked {
        r.rx = r.rx.led_to(word);
    } else {
        r.isr |= Registers::RX_DONE;
        r.rx = r.rx.stopped();
    }
    r
}

// After a send that was refused by a number.
pub fn tx_refused(mut r: Registers, number: u32) -> Registers
    ensures { result ≡ tx_refused number r }
{
    match number {
        answer::CHAIN_FAULT | answer::SEND_LENGTH => r.tx = r.tx.stopped(),
        answer::NOT_GRANTED => r.tx = r.tx.not_granted(),
        _ => {}
    }
    r
}

// After a send: the engine moves on where next-enable is set, and else stops.
pub fn tx_advanced(mut r: Registers, linked: bool, word: u32) -> Registers
    ensures { result ≡ tx_advanced r linked word }
{
    r.isr |= Registers::TX_CURR_DONE;
    if linked {
        r.tx = r.tx.led_to(word);
    } else {
        r.isr |= Registers::TX_DONE;
        r.tx = r.tx.stopped();
    }
    r
}
