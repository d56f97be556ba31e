// The frame check sequence of IEEE 802.3.
#![tactic(auto)]

ghost use Rattle.std.specs.Prelude.{◌≡◌};
ghost use Rattle.fcs.specs.CheckSequence.{check_number, check_right, room, closed};

// The check of a message, its first bit on the wire the least significant.
pub fn check_number(bytes: &[u8]) -> u32
    ensures { result ≡ check_number bytes.now }
{
    !half_bytes::bytes_in(0xffff_ffff, bytes)
}

// Whether the last four bytes of a frame are the check sequence of those before.
pub fn check_right(frame: &[u8]) -> bool
    ensures { result ≡ check_right frame.now }
{
    match frame.split_last_chunk::<4>() {
        Some((message, sequence)) => u32::from_le_bytes(*sequence) == check_number(message),
        None => false,
    }
}

// Writes the check sequence of the first n bytes behind them. Where there is no room nothing is
// written, and the answer is false.
pub fn close(s: &mut [u8], n: usize) -> bool
    ensures { (result ≡ room s.old n) × (s.new ≡ closed s.old n) }
{
    if s.len().saturating_sub(n) < 4 {
        return false;
    }
    let check = check_number(&s[..n]);
    s[n..n + 4].copy_from_slice(&check.to_le_bytes());
    true
}
