// The multicast hash: whether the hash registers take a group address.
#![tactic(auto)]

ghost use Rattle.std.specs.Prelude.{◌≡◌};
ghost use Rattle.hash.specs.Hash.{hash_index, hash_table, hash_accepts};

// The hash index of a destination. The check is the register complemented, with the coefficient of
// x^31 in its least significant bit; the index has that coefficient in its most significant one.
fn index(destination: &[u8]) -> u32
    ensures { result ≡ hash_index destination.now }
{
    let register = !fcs::check_number(destination);
    register.reverse_bits() >> 26
}

// The hash register that an index selects.
fn table(high: u32, low: u32, index: u32) -> u32
    ensures { result ≡ hash_table high low index }
{
    if index / 32 % 2 == 1 { high } else { low }
}

// Whether the bit that the destination selects is 1.
pub fn accepts(high: u32, low: u32, destination: &[u8]) -> bool
    ensures { result ≡ hash_accepts high low destination.now }
{
    let i = index(destination);
    let t = table(high, low, i);
    (t >> (i % 32)) % 2 == 1
}
