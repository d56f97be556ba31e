// The buffer of a descriptor and its faults.
ghost use Rattle.std.specs.Prelude.{◌≡◌};
ghost use Rattle.descriptor.specs.Descriptor.{count, start};
ghost use Rattle.chain.specs.Buffer.{bytes_fault, buffer_fault};

use window::Window;

// n bytes lie outside the window or share a byte with their descriptor.
#[tactic(auto, unfolding(crate::specs::Buffer::bytes_fault))]
fn bytes_fault(window: Window, d: u32, from: u32, n: u32) -> bool
    ensures { result ≡ bytes_fault window.base window.length d from n }
{
    n != 0 && (!window.holds(from, n) || !address::apart(from, n, d, 16))
}

// The buffer of a descriptor cannot take, or give, n bytes.
#[tactic(auto, unfolding(crate::specs::Buffer::buffer_fault))]
pub(crate) fn buffer_fault(window: Window, m: &[u8], d: u32, n: usize) -> bool
    ensures { result ≡ buffer_fault window.base window.length d (start window.base m.now d) (count window.base m.now d) n }
{
    !descriptor::start_aligned(window, m, d)
        || (descriptor::count(window, m, d) as usize) < n
        || bytes_fault(window, d, descriptor::start(window, m, d), n as u32)
}
