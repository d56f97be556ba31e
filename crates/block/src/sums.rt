// The check of a block. Bytes 0 to 507 are weighed in four quarters of 127: bytes at the same place of their quarters have one
// weight there, and 127 more for each quarter before. So four bytes need one product.
ghost use Rattle.std.specs.Prelude.{◌+◌, ◌*◌, ◌≤◌, ◌≡◌, length};
ghost use Rattle.block.specs.Fields.{weighted, check_of};

// Four bytes of one place, by their weight in the first quarter. Their sums fit 16 bits, so that a compiler adds eight at once.
fn four(a: u8, b: u8, c: u8, d: u8, weight: u8) -> u32
    requires { weight ≤ 127 }
    ensures { (result ≡ a * weight + b * (weight + 127) + c * (weight + 254) + d * (weight + 381)) × (result ≤ 323850) }
{
    let second = b as u16;
    let third = c as u16;
    let last = d as u16;
    let all = a as u16 + second + third + last;
    let over = second + third + third + last + last + last;
    all as u32 * weight as u32 + 127 * over as u32
}

// Each byte times its position plus one, summed.
fn weigh(a: &[u8], b: &[u8], c: &[u8], d: &[u8]) -> u32
    requires { (length a.now ≡ 127) × ((length b.now ≡ 127) × ((length c.now ≡ 127) × (length d.now ≡ 127))) }
    ensures { result ≡ weighted 0 a.now + weighted 127 b.now + weighted 254 c.now + weighted 381 d.now }
{
    let mut sum = 0u32;
    let mut weight = 0u8;
    let mut i = 0;
    while i < 127 {
        weight += 1;
        sum += four(a[i], b[i], c[i], d[i], weight);
        i += 1;
    }
    sum
}

// The check that bytes 0 to 507 ask for.
pub(crate) fn check(block: &[u8]) -> u32
    requires { 508 ≤ length block.now }
    ensures { result ≡ check_of block.now }
{
    let sum = weigh(
        memory::part(block, 0, 127),
        memory::part(block, 127, 127),
        memory::part(block, 254, 127),
        memory::part(block, 381, 127),
    );
    sum % 65521
}
