// Little-endian 32-bit words and runs of bytes in lent memory. Every function is total: a byte past the end
// reads 0, and a store past the end does nothing.
#![tactic(auto)]

ghost use Rattle.std.specs.Prelude.{◌≡◌, get_or, set, take, drop};
ghost use Rattle.memory.specs.Memory.{word, store_word, store};

// The byte at an offset.
pub fn byte(m: &[u8], at: usize) -> u8
    ensures { result ≡ get_or m.now at 0 }
{
    m.get(at).copied().unwrap_or(0)
}

// The word at an offset.
pub fn word(m: &[u8], at: usize) -> u32
    ensures { result ≡ word m.now at }
{
    if m.len() <= at {
        return 0;
    }
    u32::from_le_bytes([
        byte(m, at),
        byte(m, at + 1),
        byte(m, at + 2),
        byte(m, at + 3),
    ])
}

// Stores a byte at an offset.
fn store_byte(m: &mut [u8], at: usize, b: u8)
    ensures { m.new ≡ set m.old at b }
{
    if at < m.len() {
        m[at] = b;
    }
}

// Stores a word at an offset. Where all four bytes have room they are one move.
pub fn store_word(m: &mut [u8], at: usize, v: u32)
    ensures { m.new ≡ store_word m.old at v }
{
    if m.len() <= at {
        return;
    }
    let bytes = v.to_le_bytes();
    if m.len() - at < 4 {
        for i in 0..4 {
            store_byte(m, at + i, bytes[i]);
        }
    } else {
        m[at..at + 4].copy_from_slice(&bytes);
    }
}

// Stores the bytes of s from an offset on. How many have room is settled before the loop: a test at each byte would keep the
// compiler from moving several at once. `copy_from_slice` of so many bytes would be a call of `memmove`.
pub fn store(m: &mut [u8], at: usize, s: &[u8])
    ensures { m.new ≡ store m.old at s.now }
{
    if m.len() <= at {
        return;
    }
    let n = s.len().min(m.len() - at);
    for i in 0..n {
        m[at + i] = s[i];
    }
}

// The n bytes from an offset on, or as many of them as there are.
pub fn part(m: &[u8], at: usize, n: usize) -> &[u8]
    ensures { result.now ≡ take n (drop at m.now) }
{
    if m.len() <= at {
        return &m[..0];
    }
    let n = n.min(m.len() - at);
    &m[at..at + n]
}
