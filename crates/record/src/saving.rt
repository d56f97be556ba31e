// A recorded day as its two files.
use crate::messages;
use recording::Day;
use std::rt::{Env, Files};

// The greatest window.
pub(crate) const IMAGE: usize = 65536;

// A trace of 4,096 blocks,
pub(crate) const TRACE: usize = 2097152;

// and the events in it: 504 bytes of each block, without the header.
pub(crate) const LIST: usize = 2064378;

// The bytes of so many blocks, as far as there is room.
fn size(blocks: usize) -> usize {
    512 * blocks.min(TRACE / 512)
}

// Writes the trace into its room, makes both files and says so.
pub(crate) fn saved<R: Env + Files + Print>(
    rt: &R,
    day: Day,
    image: &[u8; IMAGE],
    list: &[u8; LIST],
    trace: &mut [u8; TRACE],
) {
    let events = memory::part(list, 0, day.bytes);
    let blocks = match trace_writing::write(day.base, day.window, events, trace) {
        Ok(blocks) => blocks,
        Err(refusal) => {
            messages::numbered(rt, b"refused ", u64::from(u32::from(refusal)));
            return;
        }
    };
    let failed = target_files::make_both(
        rt,
        1,
        memory::part(trace, 0, size(blocks)),
        2,
        memory::part(image, 0, day.window as usize),
    );
    if failed == 0 {
        messages::counted(rt, b"recorded ", day.events, blocks as u64);
    }
}
