// The first three words of a descriptor, on lent memory: control, start address, next descriptor. Each function is total:
// a byte past the end of the lent memory reads 0, and an address below the base counts as the base.
#![tactic(auto)]

ghost use Rattle.std.specs.Prelude.{◌≡◌};
ghost use Rattle.address.specs.Address.{aligned};
ghost use Rattle.descriptor.specs.Descriptor.{count, next_enabled, start, next_word, next};

use window::Window;

// The transfer count of the descriptor at an address.
#[tactic(auto, unfolding(crate::specs::Descriptor::count))]
pub fn count(window: Window, m: &[u8], d: u32) -> u32
    ensures { result ≡ count window.base m.now d }
{
    memory::word(m, window.offset(d)) % 4096
}

// Its next-enable bit.
#[tactic(auto, unfolding(crate::specs::Descriptor::next_enabled))]
pub fn next_enabled(window: Window, m: &[u8], d: u32) -> bool
    ensures { result ≡ next_enabled window.base m.now d }
{
    memory::word(m, window.offset(d)) / 0x4000 % 2 == 1
}

// Its start address word.
#[tactic(auto, unfolding(crate::specs::Descriptor::start))]
pub fn start(window: Window, m: &[u8], d: u32) -> u32
    ensures { result ≡ start window.base m.now d }
{
    memory::word(m, window.offset(d) + 4)
}

// Its start address word has clear low bits.
pub fn start_aligned(window: Window, m: &[u8], d: u32) -> bool
    ensures { result ≡ aligned (start window.base m.now d) }
{
    address::aligned(start(window, m, d))
}

// Its next descriptor word.
#[tactic(auto, unfolding(crate::specs::Descriptor::next_word))]
pub fn next_word(window: Window, m: &[u8], d: u32) -> u32
    ensures { result ≡ next_word window.base m.now d }
{
    memory::word(m, window.offset(d) + 8)
}

// The place of the next descriptor.
#[tactic(auto, unfolding(crate::specs::Descriptor::next))]
pub fn next(window: Window, m: &[u8], d: u32) -> u32
    ensures { result ≡ next window.base m.now d }
{
    address::place_of(next_word(window, m, d))
}
