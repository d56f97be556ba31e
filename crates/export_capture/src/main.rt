// Replays a recorded day, and makes a capture of the frames that it delivers and sends (docs/CAPTURE.md).
#![tactic(auto)]

mod messages;

use answer::Refusal;
use capturing::Day;
use pcap_export::Exported;
use recorded_days::Loaded;
use std::rt::{Env, Files};
use stream::Refused;
use trace::Summary;

// A trace of 4,096 blocks. Once its events are read, the frames of the day are listed here.
const TRACE: usize = 2_097_152;

// The events of such a trace, and later the capture.
const ROOM: usize = 2_097_152;

// So many bytes of frames a capture of that size has: all but its header.
const LIST: usize = ROOM - pcap::HEADER;

// The most bytes that are taken of the memory image.
const MEMORY: usize = 98_312;

// The output that each send is lent.
const OUTPUT: usize = 1518;

// Both files of the day, each into a buffer of its own.
fn load<R: Env + Files + Print>(
    rt: &R,
    trace: &mut [u8; TRACE],
    memory: &mut [u8; MEMORY],
) -> Option<Loaded> {
    recorded_days::load(rt, trace, memory)
}

// What the trace says, and its events in one piece.
fn read(loaded: Loaded, trace: &[u8; TRACE], events: &mut [u8; ROOM]) -> Result<Summary, Refused> {
    recorded_days::read(loaded, trace, events)
}

// The day played over the bytes that are lent of the memory, and its frames listed.
fn capture_lent(
    summary: Summary,
    events: &[u8],
    memory: &mut [u8],
    lent: usize,
    output: &mut [u8],
    list: &mut [u8],
) -> Day {
    let k = files::within(lent, memory);
    let n = files::within(LIST, list);
    capturing::capture(
        summary.base,
        summary.window,
        memory::part(events, 0, summary.bytes),
        &mut memory[..k],
        output,
        &mut list[..n],
    )
}

fn capture(
    summary: Summary,
    events: &[u8; ROOM],
    memory: &mut [u8; MEMORY],
    lent: usize,
    list: &mut [u8; TRACE],
) -> Day {
    let mut output = [0u8; OUTPUT];
    capture_lent(summary, events, memory, lent, &mut output, list)
}

// The capture of the frames that are listed.
fn export(list: &[u8; TRACE], n: usize, room: &mut [u8; ROOM]) -> Result<Exported, Refusal> {
    pcap_export::export(memory::part(list, 0, n), room)
}

// The first bytes of the capture as a file.
fn save<R: Env + Files + Print>(rt: &R, room: &[u8; ROOM], n: usize) -> u32 {
    target_files::make(rt, 3, memory::part(room, 0, n))
}

// Makes the capture of a day that was played, and says so.
fn save_day<R: Env + Files + Print>(rt: &R, day: Day, list: &[u8; TRACE], room: &mut [u8; ROOM]) {
    let kept = day.kept;
    if kept.full {
        messages::refused(rt, Refusal::CaptureRoom);
        return;
    }
    match export(list, kept.bytes, room) {
        Ok(exported) => {
            if save(rt, room, exported.bytes) == 0 {
                messages::exported(rt, exported.frames);
            }
        }
        Err(refusal) => messages::refused(rt, refusal),
    }
}

// Exports a day, or says why not.
fn export_day<R: Env + Files + Print>(
    rt: &R,
    loaded: Loaded,
    trace: &mut [u8; TRACE],
    memory: &mut [u8; MEMORY],
) {
    let mut room = [0u8; ROOM];
    match read(loaded, trace, &mut room) {
        Ok(summary) => {
            let day = capture(summary, &room, memory, loaded.memory, trace);
            save_day(rt, day, trace, &mut room);
        }
        Err(refused) => messages::refused_trace(rt, refused),
    }
}

fn main(rt: HostRuntime) {
    if arguments::count(&rt, 5) != 4 {
        let _ = println!(rt; "usage: export_capture TRACE MEMORY PCAP");
        return;
    }
    let mut trace = [0u8; TRACE];
    let mut memory = [0u8; MEMORY];
    if let Some(loaded) = load(&rt, &mut trace, &mut memory) {
        export_day(&rt, loaded, &mut trace, &mut memory);
    }
}
