// Replays a recorded day, and writes what each of its events answered (docs/TRACE.md).
#![tactic(auto)]

mod day;

use recorded_days::Loaded;
use std::rt::{Env, Files};
use stream::Refused;
use trace::Summary;

// A trace of 4,096 blocks.
const TRACE: usize = 2_097_152;

// The events of such a trace.
const EVENTS: usize = 2_064_378;

// The most bytes that are taken of the memory image.
const MEMORY: usize = 98_312;

// Both files of the day, each into a buffer of its own.
fn load<R: Env + Files + Print>(
    rt: &R,
    trace: &mut [u8; TRACE],
    memory: &mut [u8; MEMORY],
) -> Option<Loaded> {
    recorded_days::load(rt, trace, memory)
}

// What the trace says, and its events in one piece.
fn read(
    loaded: Loaded,
    trace: &[u8; TRACE],
    events: &mut [u8; EVENTS],
) -> Result<Summary, Refused> {
    recorded_days::read(loaded, trace, events)
}

// The first of them.
fn first(events: &[u8; EVENTS], n: usize) -> &[u8] {
    memory::part(events, 0, n)
}

// Replays a day, or says why not.
fn replay<P: Print>(rt: &P, loaded: Loaded, trace: &[u8; TRACE], memory: &mut [u8; MEMORY]) {
    let mut events = [0u8; EVENTS];
    match read(loaded, trace, &mut events) {
        Ok(summary) => day::whole_day(
            rt,
            summary.base,
            summary.window,
            first(&events, summary.bytes),
            memory,
            loaded.memory,
        ),
        Err(refused) => day::refused(rt, u32::from(refused.refusal), refused.block),
    }
}

fn main(rt: HostRuntime) {
    if arguments::count(&rt, 4) != 3 {
        let _ = println!(rt; "usage: replay TRACE MEMORY");
        return;
    }
    let mut trace = [0u8; TRACE];
    let mut memory = [0u8; MEMORY];
    if let Some(loaded) = load(&rt, &mut trace, &mut memory) {
        replay(&rt, loaded, &trace, &mut memory);
    }
}
