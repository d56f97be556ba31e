// What the program says on standard output. A capture may have many frames, so lines wait until there are many to write.
use crate::TIMES;
use answer::Refusal;

// Text that waits to be written.
const TEXT: usize = 65_536;

// So much may wait before a line.
const MOST: usize = TEXT - 64;

// Writes what waits where it is more than `most`, and answers how much waits then.
fn write_past<P: Print>(rt: &P, most: usize, text: &[u8; TEXT], waiting: usize) -> usize {
    if waiting <= most {
        return waiting;
    }
    let _ = rt.write_all(memory::part(text, 0, waiting));
    0
}

fn refused_line(text: &mut [u8; TEXT], refusal: Refusal) -> usize {
    replies::numbered(text, 0, b"refused", u64::from(u32::from(refusal)))
}

fn first_line(text: &mut [u8; TEXT], frames: usize) -> usize {
    replies::numbered(text, 0, b"imported", frames as u64)
}

// The time that stands at a place.
fn time_line(text: &mut [u8; TEXT], waiting: usize, times: &[u8], at: usize) -> usize {
    if times.len() <= at {
        return waiting;
    }
    let seconds = memory::word(times, at) as u64;
    let microseconds = memory::word(times, at + 4) as u64;
    day_reports::counted(text, waiting, b"time", seconds, microseconds)
}

// The times of so many bytes, one a line.
fn time_lines<P: Print>(rt: &P, text: &mut [u8; TEXT], begun: usize, times: &[u8]) -> usize {
    let mut waiting = begun;
    let mut at = 0;
    while at < times.len() {
        waiting = write_past(rt, MOST, text, waiting);
        waiting = time_line(text, waiting, times, at);
        at += 8;
    }
    waiting
}

// The times of so many frames.
fn told(times: &[u8; TIMES], frames: usize) -> &[u8] {
    if frames <= TIMES / 8 {
        return memory::part(times, 0, 8 * frames);
    }
    memory::part(times, 0, TIMES)
}

pub(crate) fn refused<P: Print>(rt: &P, refusal: Refusal) {
    let mut text = [0u8; TEXT];
    let n = refused_line(&mut text, refusal);
    write_past(rt, 0, &text, n);
}

pub(crate) fn imported<P: Print>(rt: &P, frames: usize, times: &[u8; TIMES]) {
    let mut text = [0u8; TEXT];
    let n = first_line(&mut text, frames);
    let n = time_lines(rt, &mut text, n, told(times, frames));
    write_past(rt, 0, &text, n);
}
