// The block of 512 bytes that traces are made of (02, Wish 4): its fields, its faults in their order, and a block made of its
// number and its used data.
#![tactic(auto)]

pub mod made;
mod sums;

ghost use Rattle.std.specs.Prelude.{◌+◌, ◌*◌, ◌≡◌};
ghost use Rattle.answer.specs.Refusals.{number_of};
ghost use Rattle.block.specs.Fields.{block_number, used_length};
ghost use Rattle.block.specs.Faults.{used_fault, all_zero, block_fault};

use answer::Refusal;

// The number of two bytes, the lowest first.
fn half_of(low: u8, high: u8) -> usize
    ensures { result ≡ low + 256 * high }
{
    u16::from_le_bytes([low, high]) as usize
}

// The block number.
fn number(block: &[u8]) -> usize
    ensures { result ≡ block_number block.now }
{
    half_of(memory::byte(block, 0), memory::byte(block, 1))
}

// The used length.
pub fn used(block: &[u8]) -> usize
    ensures { result ≡ used_length block.now }
{
    half_of(memory::byte(block, 2), memory::byte(block, 3))
}

// A used length that a block, the last one or another, cannot have.
#[tactic(auto, unfolding(crate::specs::Faults::used_fault))]
fn used_fault(last: bool, used: usize) -> bool
    ensures { result ≡ used_fault last used }
{
    used == 0 || used > 504 || (!last && used < 504)
}

// All of these bytes are zero.
fn all_zero(bytes: &[u8]) -> bool
    ensures { result ≡ all_zero bytes.now }
{
    bytes.iter().all(|byte| *byte == 0)
}

// The first fault of the block that should have this number.
pub fn fault(block: &[u8], k: usize, last: bool) -> Result<(), Refusal>
    ensures { number_of result ≡ block_fault last k block.now }
{
    if block.len() != 512 {
        return Err(Refusal::BlockLength);
    }
    if number(block) != k {
        return Err(Refusal::BlockNumber);
    }
    if memory::word(block, 508) != sums::check(block) {
        return Err(Refusal::BlockCheck);
    }
    let used = used(block);
    if used_fault(last, used) {
        return Err(Refusal::UsedLength);
    }
    if !all_zero(memory::part(block, 4 + used, 504 - used)) {
        return Err(Refusal::ZeroFill);
    }
    Ok(())
}
