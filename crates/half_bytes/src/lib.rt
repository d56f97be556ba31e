// The shift register of the check sequence, in half bytes: four single-bit steps at a time.
#![tactic(auto)]

ghost use Rattle.std.specs.Prelude.{◌≡◌};
ghost use Rattle.std.specs.Int.Bits.{bit_xor};
ghost use Rattle.half_bytes.specs.Clocks.{clocks, bytes_in, feedback802};
ghost use Rattle.half_bytes.specs.HalfBytes.{half_bytes};

// Entry i is the half byte i after four single-bit steps.
const TABLE: [u32; 16] = [
    0x0000_0000,
    0x1db7_1064,
    0x3b6e_20c8,
    0x26d9_30ac,
    0x76dc_4190,
    0x6b6b_51f4,
    0x4db2_6158,
    0x5005_713c,
    0xedb8_8320,
    0xf00f_9344,
    0xd6d6_a3e8,
    0xcb61_b38c,
    0x9b64_c2b0,
    0x86d3_d2d4,
    0xa00a_e278,
    0xbdbd_f21c,
];

// A byte enters: both half bytes are added to the register at once, and the low one leaves first. Of its
// entry the low half byte is four times the two low bits of the index; so the index of the next entry is
// known without it, and the two are read side by side. The order of the terms is the fastest that was
// found (docs/PERFORMANCE.md).
fn byte_in(t: &[u32; 16], r: u32, b: u8) -> u32
    requires { t.now ≡ half_bytes feedback802 }
    ensures { result ≡ clocks feedback802 8 (bit_xor r b) }
{
    let x = r ^ (b as u32);
    let above = (x >> 8) ^ (t[(x % 16) as usize] >> 4);
    above ^ t[(((x >> 4) ^ (x % 4 * 4)) % 16) as usize]
}

// The register behind the bytes, by a lent table, so that a table on the stack is written there once.
fn bytes_by(t: &[u32; 16], from: u32, bytes: &[u8]) -> u32
    requires { t.now ≡ half_bytes feedback802 }
    ensures { result ≡ bytes_in feedback802 from bytes.now }
{
    let mut r = from;
    for b in bytes {
        r = byte_in(t, r, *b);
    }
    r
}

// The register behind the bytes. A copy of the table on the stack is read faster than the constant where it
// lies (docs/PERFORMANCE.md).
pub fn bytes_in(from: u32, bytes: &[u8]) -> u32
    ensures { result ≡ bytes_in feedback802 from bytes.now }
{
    let table = TABLE;
    bytes_by(&table, from, bytes)
}
