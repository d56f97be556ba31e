// The ring check: whether following the next words gives a sound ring of descriptors.
#![tactic(auto)]

ghost use Rattle.std.specs.Prelude.{◌≡◌};
ghost use Rattle.ring.specs.Ring.{apart_from_rest, ring_from, sound_ring};

use window::Window;

// The regions of d and those of the descriptors left, from e on, share no byte.
#[tactic(auto, unfolding(crate::specs::Ring::apart_from_rest))]
fn apart_from_rest(window: Window, m: &[u8], d: u32, left: u32, e: u32) -> bool
    ensures { result ≡ apart_from_rest window.base m.now d left e }
{
    left == 0
        || ring_descriptors::regions_apart(window, m, d, e)
            && apart_from_rest(window, m, d, left - 1, descriptor::next(window, m, e))
}

// The descriptors left, from d on, are sound and apart, and then comes the first.
#[tactic(auto, unfolding(crate::specs::Ring::ring_from))]
fn ring_from(window: Window, m: &[u8], first: u32, left: u32, d: u32) -> bool
    ensures { result ≡ ring_from window.base window.length m.now first left d }
{
    if left == 0 {
        return d == first;
    }
    let e = descriptor::next(window, m, d);
    ring_descriptors::sound_descriptor(window, m, d)
        && apart_from_rest(window, m, d, left - 1, e)
        && ring_from(window, m, first, left - 1, e)
}

// Whether `number` descriptors from `first` on are a sound ring.
#[tactic(auto, unfolding(crate::specs::Ring::sound_ring))]
pub fn sound_ring(window: Window, m: &[u8], number: u32, first: u32) -> bool
    ensures { result ≡ sound_ring window.base window.length m.now number first }
{
    window.lent(m)
        && (1..=32).contains(&number)
        && address::aligned(first)
        && ring_from(window, m, first, number, first)
}
