// A block made of its number and its used data.
ghost use Rattle.std.specs.Prelude.{◌<◌, ◌≡◌, ◌++◌, length, replicate};
ghost use Rattle.memory.specs.Memory.{store};
ghost use Rattle.block.specs.Made.{half_bytes, front_of, block_of};

use crate::sums::check;

// The two numbers at a block's front, lowest bytes first.
fn head(number: usize, used: usize) -> [u8; 4]
    ensures { result ≡ half_bytes number ++ half_bytes used }
{
    let [number_low, number_high, ..] = number.to_le_bytes();
    let [used_low, used_high, ..] = used.to_le_bytes();
    [number_low, number_high, used_low, used_high]
}

// Puts n zeros from an offset on, as many as have room.
fn clear(room: &mut [u8], at: usize, n: usize)
    ensures { room.new ≡ store room.old at (replicate n 0) }
{
    if room.len() <= at {
        return;
    }
    let end = at + n.min(room.len() - at);
    room[at..end].fill(0);
}

// Puts bytes 0 to 507 of the block of this number and this used data into the room, from an offset on.
fn put_front(room: &mut [u8], at: usize, number: usize, used: &[u8])
    requires { at < length room.old }
    ensures { room.new ≡ store room.old at (front_of number used.now) }
{
    let kept = memory::part(used, 0, 504);
    memory::store(room, at, &head(number, used.len()));
    memory::store(room, at + 4, kept);
    clear(room, at + 4 + kept.len(), 504 - kept.len());
}

// Puts the block of this number and this used data into the room, from an offset on. Its check is read of the bytes before it,
// where they are all in the room; else the check has no place.
pub fn put(room: &mut [u8], at: usize, number: usize, used: &[u8])
    ensures { room.new ≡ store room.old at (block_of number used.now) }
{
    if room.len() <= at {
        return;
    }
    put_front(room, at, number, used);
    if room.len() - at < 508 {
        return;
    }
    let check = check(memory::part(room, at, 508));
    memory::store_word(room, at + 508, check);
}
