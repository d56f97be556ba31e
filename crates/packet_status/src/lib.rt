// The packet status word of a descriptor, on lent memory. Each function is total: a byte past the end of the lent memory
// reads 0, a store there does nothing, and an address below the base counts as the base.
#![tactic(auto)]

ghost use Rattle.std.specs.Prelude.{◌≡◌};
ghost use Rattle.packet_status.specs.PacketStatus.{packet_status, granted, frame_length, with_packet_status};

use window::Window;

// VALID, bit 16, at the DMA's level, and every other bit 0: the word that a grant writes.
pub const VALID: u32 = 0x0001_0000;

// How many frame lengths there are: bits 10 to 0.
const LENGTHS: u32 = 2048;

// The word of the descriptor at an address.
#[tactic(auto, unfolding(crate::specs::PacketStatus::packet_status))]
fn packet_status(window: Window, m: &[u8], d: u32) -> u32
    ensures { result ≡ packet_status window.base m.now d }
{
    memory::word(m, window.offset(d) + 12)
}

// VALID stands at the DMA's level.
#[tactic(auto, unfolding(crate::specs::PacketStatus::granted))]
pub fn granted(window: Window, m: &[u8], d: u32) -> bool
    ensures { result ≡ granted window.base m.now d }
{
    packet_status(window, m, d) / VALID % 2 == 1
}

// The frame length that it holds.
#[tactic(auto, unfolding(crate::specs::PacketStatus::frame_length))]
pub fn frame_length(window: Window, m: &[u8], d: u32) -> u32
    ensures { result ≡ frame_length window.base m.now d }
{
    packet_status(window, m, d) % LENGTHS
}

// Writes it.
#[tactic(auto, unfolding(crate::specs::PacketStatus::with_packet_status))]
pub fn set_packet_status(window: Window, m: &mut [u8], d: u32, v: u32)
    ensures { m.new ≡ with_packet_status window.base m.old d v }
{
    memory::store_word(m, window.offset(d) + 12, v);
}
