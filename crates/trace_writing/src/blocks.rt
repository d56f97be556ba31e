// The blocks of a trace, put one behind the other. Only block 0 is put together apart: the others lie in the events as they are.
ghost use Rattle.std.specs.Prelude.{◌-◌, ◌≤◌, ◌≡◌, ◌++◌, length, take, drop};
ghost use Rattle.memory.specs.Memory.{word_bytes, store};
ghost use Rattle.block.specs.Made.{half_bytes, block_of};
ghost use Rattle.trace_writing.specs.Made.{stream_of, blocks_of};

// The header: the base, and the window's length less one, lowest bytes first.
fn header(base: u32, last: u32) -> [u8; 6]
    ensures { result ≡ word_bytes base ++ half_bytes last }
{
    let [a, b, c, d] = base.to_le_bytes();
    let [low, high, ..] = last.to_le_bytes();
    [a, b, c, d, low, high]
}

// Room for the used data of block 0.
fn blank() -> [u8; 504]
    ensures { 504 ≡ length result }
{
    [0; 504]
}

// Puts block 0: the header, and behind it the events that have room.
fn put_first(base: u32, window: u32, events: &[u8], room: &mut [u8])
    requires { 1 ≤ window }
    ensures { room.new ≡ store room.old 0 (block_of 0 (take 504 (stream_of base window events.now))) }
{
    let mut used = blank();
    let header = header(base, window - 1);
    let kept = memory::part(events, 0, 498);
    memory::store(&mut used, 0, &header);
    memory::store(&mut used, 6, kept);
    block::made::put(room, 0, 0, memory::part(&used, 0, 6 + kept.len()));
}

// Puts the blocks behind block 0.
fn put_rest(events: &[u8], blocks: usize, room: &mut [u8])
    requires { (1 ≤ blocks) × (blocks ≤ 65536) }
    ensures { room.new ≡ store room.old 512 (blocks_of 1 (blocks - 1) (drop 498 events.now)) }
{
    for k in 1..blocks {
        block::made::put(room, 512 * k, k, memory::part(events, 504 * k - 6, 504));
    }
}

// Puts so many blocks, one behind the other.
pub(crate) fn put_all(base: u32, window: u32, events: &[u8], blocks: usize, room: &mut [u8])
    requires { (1 ≤ window) × ((1 ≤ blocks) × (blocks ≤ 65536)) }
    ensures { room.new ≡ store room.old 0 (blocks_of 0 blocks (stream_of base window events.now)) }
{
    put_first(base, window, events, room);
    put_rest(events, blocks, room);
}
