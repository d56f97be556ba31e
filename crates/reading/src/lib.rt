// Reading a delivered frame: its number by one call, and the part of the lent window that holds it by another.
#![tactic(auto)]

ghost use Rattle.std.specs.Prelude.{◌≡◌};
ghost use Rattle.answer.specs.Refusals.{number_of};
ghost use Rattle.reading.specs.Reading.{shown, reading_number, reading};

use answer::Refusal;
use window::Window;

// The descriptor shows a frame.
#[tactic(auto, unfolding(crate::specs::Reading::shown))]
fn shown(window: Window, m: &[u8], d: u32) -> bool
    ensures { result ≡ shown window.base window.length m.now d }
{
    let length = packet_status::frame_length(window, m, d);
    address::aligned(d)
        && window.holds(d, 16)
        && !packet_status::granted(window, m, d)
        && descriptor::start_aligned(window, m, d)
        && frame::length_allowed(length as usize)
        && window.holds(descriptor::start(window, m, d), length)
}

// The refusals, 11 and 13, or 0.
#[tactic(auto, unfolding(crate::specs::Reading::reading_number))]
pub fn reading_number(window: Window, m: &[u8], d: u32) -> Result<(), Refusal>
    ensures { number_of result ≡ reading_number window.base window.length m.now d }
{
    if !window.lent(m) {
        return Err(Refusal::LentLength);
    }
    if !shown(window, m, d) {
        return Err(Refusal::NoDescriptor);
    }
    Ok(())
}

// The frame without its last four bytes, or an empty part.
pub fn reading(window: Window, m: &[u8], d: u32) -> &[u8]
    ensures { result.now ≡ reading window.base window.length m.now d }
{
    if reading_number(window, m, d).is_err() {
        return &[];
    }
    let n = packet_status::frame_length(window, m, d) as usize;
    let from = window.offset(descriptor::start(window, m, d));
    memory::part(m, from, n - 4)
}
