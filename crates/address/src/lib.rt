// Addresses by themselves: their low bits, the words that lead to them, and whether two regions share a byte.
#![tactic(auto)]

ghost use Rattle.std.specs.Prelude.{◌≡◌};
ghost use Rattle.address.specs.Address.{aligned, place_of, polls, apart};

// Next-polling enable, bit 0 of a next-descriptor register and of a descriptor's next word (RM0006, chapter 8).
const NPOL_EN: u32 = 0x0000_0001;

// A multiple of 4.
#[tactic(auto, unfolding(crate::specs::Address::aligned))]
pub fn aligned(address: u32) -> bool
    ensures { result ≡ aligned address }
{
    address % 4 == 0
}

// The place that a word leads to: its low two bits are cleared.
#[tactic(auto, unfolding(crate::specs::Address::place_of))]
pub fn place_of(word: u32) -> u32
    ensures { result ≡ place_of word }
{
    word - word % 4
}

// Polling is enabled for the place that a word leads to.
#[tactic(auto, unfolding(crate::specs::Address::polls))]
pub fn polls(word: u32) -> bool
    ensures { result ≡ polls word }
{
    word / NPOL_EN % 2 == 1
}

// Two regions that are not empty share no byte.
#[tactic(auto, unfolding(crate::specs::Address::apart))]
pub fn apart(a: u32, n: u32, b: u32, k: u32) -> bool
    ensures { result ≡ apart a n b k }
{
    u64::from(a) + u64::from(n) <= u64::from(b) || u64::from(b) + u64::from(k) <= u64::from(a)
}
