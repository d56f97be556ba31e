// The descriptors of a sound ring: one by itself, and two that share no byte.
#![tactic(auto)]

ghost use Rattle.std.specs.Prelude.{◌≡◌};
ghost use Rattle.ring_descriptors.specs.RingDescriptors.{sound_descriptor, regions_apart};

use window::Window;

// A descriptor of a sound ring, by itself.
#[tactic(auto, unfolding(crate::specs::RingDescriptors::sound_descriptor))]
pub fn sound_descriptor(window: Window, m: &[u8], d: u32) -> bool
    ensures { result ≡ sound_descriptor window.base window.length m.now d }
{
    let count = descriptor::count(window, m, d);
    let start = descriptor::start(window, m, d);
    window.holds(d, 16)
        && descriptor::next_enabled(window, m, d)
        && address::polls(descriptor::next_word(window, m, d))
        && 1518 <= count
        && address::aligned(start)
        && window.holds(start, count)
        && address::apart(start, count, d, 16)
}

// The regions of two descriptors share no byte.
#[tactic(auto, unfolding(crate::specs::RingDescriptors::regions_apart))]
pub fn regions_apart(window: Window, m: &[u8], d: u32, e: u32) -> bool
    ensures { result ≡ regions_apart window.base m.now d e }
{
    let start = descriptor::start(window, m, d);
    let count = descriptor::count(window, m, d);
    let other = descriptor::start(window, m, e);
    let other_count = descriptor::count(window, m, e);
    address::apart(d, 16, e, 16)
        && address::apart(d, 16, other, other_count)
        && address::apart(start, count, e, 16)
        && address::apart(start, count, other, other_count)
}
