// Makes a recorded day of a console script: docs/TRACE.md, "record".
#![tactic(auto)]

mod messages;
mod saving;

use lines::Input;
use recording::Day;
use saving::{IMAGE, LIST, TRACE};
use std::io::Read;
use std::rt::{Env, Files};

// Takes the line that a part of the input ended, where it ended one.
fn taken(
    day: Day,
    input: Input,
    line: &[u8; lines::LINE],
    image: &mut [u8; IMAGE],
    list: &mut [u8; LIST],
) -> Day {
    if let Some(n) = input.ended {
        return recording::take(day, memory::part(line, 0, n), image, list);
    }
    day
}

// Takes each line of the input.
fn take_all<R: Read>(
    from: &mut R,
    mut day: Day,
    mut input: Input,
    chunk: &mut [u8; lines::CHUNK],
    line: &mut [u8; lines::LINE],
    image: &mut [u8; IMAGE],
    list: &mut [u8; LIST],
) -> Day {
    while input.parts > 0 {
        input = lines::take(input, chunk, line);
        input = lines::more(input, from, chunk);
        day = taken(day, input, line, image, list);
    }
    day
}

// The day of standard input.
fn day_of<R: Read>(from: &mut R, image: &mut [u8; IMAGE], list: &mut [u8; LIST]) -> Day {
    let mut chunk = [0u8; lines::CHUNK];
    let mut line = [0u8; lines::LINE];
    let day = recording::begin();
    let input = lines::begin();
    take_all(from, day, input, &mut chunk, &mut line, image, list)
}

// Says what became of the day. A line that is wrong comes before events without room, wherever it stands.
fn told<R: Env + Files + Print>(rt: &R, day: Day, image: &[u8; IMAGE], list: &[u8; LIST]) {
    if day.wrong != 0 {
        messages::numbered(rt, b"error ", day.wrong);
        return;
    }
    if !day.begun {
        messages::numbered(rt, b"error ", day.lines);
        return;
    }
    if day.full {
        messages::numbered(rt, b"refused ", u64::from(answer::BLOCK_ROOM));
        return;
    }
    let mut trace = [0u8; TRACE];
    saving::saved(rt, day, image, list, &mut trace);
}

fn main(rt: HostRuntime) {
    if arguments::count(&rt, 4) != 3 {
        messages::write(&rt, b"usage: record TRACE MEMORY < SCRIPT\n");
        return;
    }
    let mut image = [0u8; IMAGE];
    let mut list = [0u8; LIST];
    let day = day_of(&mut rt.reader(), &mut image, &mut list);
    told(&rt, day, &image, &list);
}
