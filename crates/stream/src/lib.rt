// The blocks of a trace one behind the other (02, Wish 4): how many there are, the first that is wrong by itself, and the events
// in them as one string of bytes.
#![tactic(auto)]

ghost use Rattle.std.specs.Prelude.{◌-◌, ◌≡◌, length, drop};
ghost use Rattle.memory.specs.Memory.{store};
ghost use Rattle.answer.specs.Refusals.{number_of};
ghost use Rattle.block.specs.Fields.{used_data};
ghost use Rattle.stream.specs.Blocks.{block_at, block_count, fault_at, fault_of, first_fault};
ghost use Rattle.stream.specs.Stream.{header_length, event_bytes};

use answer::Refusal;

// The bytes of the header: the base, and the window's length less one.
pub const HEADER: usize = 6;

// Why a trace is refused, and its bad block; 0 where the reason is no block's.
#[derive(Clone, Copy)]
pub struct Refused {
    pub refusal: Refusal,
    pub block: usize,
}

// How many blocks so many bytes are. No bytes are one block, which is bad.
pub fn block_count(bytes: usize) -> usize
    ensures { result ≡ block_count bytes }
{
    bytes.div_ceil(512).max(1)
}

// The block at a place.
pub fn block_at(trace: &[u8], k: usize) -> &[u8]
    ensures { result.now ≡ block_at trace.now k }
{
    if trace.len() / 512 < k {
        return memory::part(trace, trace.len(), 512);
    }
    memory::part(trace, 512 * k, 512)
}

// What is wrong with the block at a place by itself.
fn fault_at(trace: &[u8], k: usize, blocks: usize) -> Result<(), Refusal>
    requires { blocks ≡ block_count (length trace.now) }
    ensures { number_of result ≡ fault_at trace.now k }
{
    block::fault(block_at(trace, k), k, k == blocks - 1)
}

// The first block that is wrong by itself, or how many blocks there are.
pub fn first_fault(trace: &[u8]) -> Result<usize, Refused>
    ensures { fault_of result ≡ first_fault trace.now 0 (block_count (length trace.now)) }
{
    let blocks = block_count(trace.len());
    for k in 0..blocks {
        if let Err(refusal) = fault_at(trace, k, blocks) {
            return Err(Refused { refusal, block: k });
        }
    }
    Ok(blocks)
}

// The used data of the block at a place.
fn used_data(trace: &[u8], k: usize) -> &[u8]
    ensures { result.now ≡ used_data (block_at trace.now k) }
{
    let block = block_at(trace, k);
    memory::part(memory::part(block, 4, 504), 0, block::used(block))
}

// Where the bytes behind so many bytes of used data stand among the events: none of the header is one of them.
fn behind_header(bytes: usize) -> usize
    ensures { result ≡ bytes - header_length }
{
    bytes.saturating_sub(HEADER)
}

// How many of the bytes behind so many bytes of used data belong to the header.
fn header_left(bytes: usize) -> usize
    ensures { result ≡ header_length - bytes }
{
    HEADER.saturating_sub(bytes)
}

// Puts the events of the block at a place behind those of so many bytes of used data before it, and answers how many bytes of
// used data the block has.
fn copy_block(trace: &[u8], k: usize, bytes: usize, room: &mut [u8]) -> usize
    ensures { (result ≡ length (used_data (block_at trace.now k))) × (room.new ≡ store room.old (bytes - header_length) (drop (header_length - bytes) (used_data (block_at trace.now k)))) }
{
    let used = used_data(trace, k);
    memory::store(
        room,
        behind_header(bytes),
        memory::part(used, header_left(bytes), 504),
    );
    used.len()
}

// Puts the events of a trace at the front of the room, as many bytes as there is room for.
pub fn copy(trace: &[u8], room: &mut [u8])
    ensures { room.new ≡ store room.old 0 (event_bytes trace.now) }
{
    let blocks = block_count(trace.len());
    let mut bytes = 0;
    for k in 0..blocks {
        bytes += copy_block(trace, k, bytes, room);
    }
}
