// Makes a trace of a capture: its frames are the events (docs/CAPTURE.md).
#![tactic(auto)]

mod messages;
mod parameters;

use answer::Refusal;
use files::Got;
use parameters::Window;
use pcap_import::Imported;
use std::rt::{Env, Files};

// The longest capture that is read.
const CAPTURE: usize = 2_097_152;

// The longest trace that is made of one: 4,161 blocks. The capture itself is read into the same buffer.
const TRACE: usize = 2_130_432;

// The events and the times of the longest capture: fewer bytes than it has, and eight for each record of 16.
const EVENTS: usize = CAPTURE;

const TIMES: usize = CAPTURE / 2;

// The capture into the first bytes of its buffer.
fn load_first<R: Env + Files + Print>(rt: &R, buffer: &mut [u8]) -> Option<Got> {
    let k = files::within(CAPTURE, buffer);
    files::load(rt, 1, &mut buffer[..k])
}

fn load<R: Env + Files + Print>(rt: &R, buffer: &mut [u8; TRACE]) -> Option<Got> {
    load_first(rt, buffer)
}

// Its frames as events, and their times.
fn import(
    file: &[u8; TRACE],
    n: usize,
    events: &mut [u8; EVENTS],
    times: &mut [u8; TIMES],
) -> Result<Imported, Refusal> {
    pcap_import::import(memory::part(file, 0, n), events, times)
}

// A trace of the events.
fn write(
    window: Window,
    events: &[u8; EVENTS],
    n: usize,
    trace: &mut [u8; TRACE],
) -> Result<usize, Refusal> {
    trace_writing::write(
        window.base,
        window.length,
        memory::part(events, 0, n),
        trace,
    )
}

// The bytes of so many blocks, as far as there is room.
fn size(blocks: usize) -> usize {
    if blocks <= 4161 {
        return 512 * blocks;
    }
    TRACE
}

// The first blocks of the trace as a file.
fn save<R: Env + Files + Print>(rt: &R, trace: &[u8; TRACE], blocks: usize) -> u32 {
    target_files::make(rt, 2, memory::part(trace, 0, size(blocks)))
}

// Makes the trace of events that were imported, and says so.
fn save_events<R: Env + Files + Print>(
    rt: &R,
    window: Window,
    imported: Imported,
    events: &[u8; EVENTS],
    times: &[u8; TIMES],
    trace: &mut [u8; TRACE],
) {
    match write(window, events, imported.bytes, trace) {
        Ok(blocks) => {
            if save(rt, trace, blocks) == 0 {
                messages::imported(rt, imported.frames, times);
            }
        }
        Err(refusal) => messages::refused(rt, refusal),
    }
}

// Imports a capture of so many bytes, or says why not.
fn import_file<R: Env + Files + Print>(
    rt: &R,
    window: Window,
    count: usize,
    buffer: &mut [u8; TRACE],
) {
    let mut events = [0u8; EVENTS];
    let mut times = [0u8; TIMES];
    match import(buffer, count, &mut events, &mut times) {
        Ok(imported) => save_events(rt, window, imported, &events, &times, buffer),
        Err(refusal) => messages::refused(rt, refusal),
    }
}

// Reads the capture. One that is longer than the room is refused, whatever is in it.
fn import_window<R: Env + Files + Print>(rt: &R, window: Window) {
    let mut buffer = [0u8; TRACE];
    let Some(read) = load(rt, &mut buffer) else {
        return;
    };
    if read.more {
        messages::refused(rt, Refusal::ImportRoom);
        return;
    }
    import_file(rt, window, read.count, &mut buffer);
}

fn main(rt: HostRuntime) {
    if arguments::count(&rt, 6) != 5 {
        let _ = println!(rt; "usage: import_capture PCAP TRACE BASE LENGTH");
        return;
    }
    let window = parameters::read(&rt, 3, 4);
    if window.ok {
        import_window(&rt, window);
    }
}
