// The window on plain numbers and lent memory: what every call tests before it acts. An address below the base counts as
// the base.
#![tactic(auto)]

ghost use Rattle.std.specs.Prelude.{◌≡◌};
ghost use Rattle.window.specs.Window.{window_allowed, lent, offset, in_window, holds_descriptor};

// Where the device sees lent memory, and how many bytes of it.
#[derive(Clone, Copy, Debug, PartialEq, Eq)]
pub struct Window {
    pub base: u32,
    pub length: u32,
}

impl Window {
    // A bench may have it.
    #[tactic(auto, unfolding(crate::specs::Window::window_allowed))]
    pub fn allowed(self) -> bool
        ensures { result ≡ window_allowed self.base self.length }
    {
        64 <= self.length
            && self.length <= 65536
            && self.length % 4 == 0
            && self.base % 4 == 0
            && u64::from(self.base) + u64::from(self.length) <= 0x1_0000_0000
    }

    // The lent memory is of the window's length.
    #[tactic(auto, unfolding(crate::specs::Window::lent))]
    pub fn lent(self, m: &[u8]) -> bool
        ensures { result ≡ lent self.length m.now }
    {
        m.len() == self.length as usize
    }

    // Where an address lies in the lent memory.
    pub fn offset(self, address: u32) -> usize
        ensures { result ≡ offset self.base address }
    {
        address.saturating_sub(self.base) as usize
    }

    // n bytes from an address on lie in it.
    #[tactic(auto, unfolding(crate::specs::Window::in_window))]
    pub fn holds(self, address: u32, n: u32) -> bool
        ensures { result ≡ in_window self.base self.length address n }
    {
        self.base <= address
            && u64::from(address) + u64::from(n) <= u64::from(self.base) + u64::from(self.length)
    }

    // A descriptor at this address stands at a multiple of 4 and lies all in it.
    #[tactic(auto, unfolding(crate::specs::Window::holds_descriptor))]
    pub fn holds_descriptor(self, address: u32) -> bool
        ensures { result ≡ holds_descriptor self.base self.length address }
    {
        address::aligned(address) && self.holds(address, 16)
    }
}
