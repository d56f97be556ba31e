// The bench console. It reads calls from standard input until its end, one a line, and writes what crate board answers:
// docs/CONSOLE.md.
#![tactic(auto)]

use board::{Board, BoardTold};
use lines::Input;
use std::io::Read;

// The greatest window, and eight bytes to lend too much.
const MEMORY: usize = 65544;

// Two of the longest answers.
const TEXT: usize = 262144;

// The longest answer: the digits of 65,536 bytes, and words and numbers of fewer than 64 characters.
const LONGEST: usize = 131136;

// So many bytes may wait before it.
const MOST: usize = TEXT - LONGEST;

// Writes what waits where it is more than `most`, and answers how much waits then.
fn write_past<P: Print>(rt: &P, most: usize, text: &[u8; TEXT], waiting: usize) -> usize {
    if waiting <= most {
        return waiting;
    }
    let _ = rt.write_all(memory::part(text, 0, waiting));
    0
}

// Writes what waits. Behind a line, where its answer might have no room; else all of it, before the next chunk is read: so
// whoever types lines sees the answer of each before the next read.
fn written<P: Print>(rt: &P, input: Input, text: &[u8; TEXT], waiting: usize) -> usize {
    if input.ended.is_some() {
        return write_past(rt, MOST, text, waiting);
    }
    write_past(rt, 0, text, waiting)
}

// Answers the line that a part of the input ended, where it ended one.
fn answered(
    board: Board,
    input: Input,
    waiting: usize,
    memory: &mut [u8; MEMORY],
    line: &[u8; lines::LINE],
    text: &mut [u8; TEXT],
) -> BoardTold {
    if let Some(n) = input.ended {
        return board::answer(board, memory, memory::part(line, 0, n), text, waiting);
    }
    BoardTold {
        board,
        end: waiting,
    }
}

// Answers each line of the input, and gives how much of the text waits to be written at its end. What comes before the
// first part and after the last is left to the caller.
fn answer_all<P: Print, R: Read>(
    rt: &P,
    from: &mut R,
    mut told: BoardTold,
    mut input: Input,
    memory: &mut [u8; MEMORY],
    chunk: &mut [u8; lines::CHUNK],
    line: &mut [u8; lines::LINE],
    text: &mut [u8; TEXT],
) -> usize {
    while input.parts > 0 {
        input = lines::take(input, chunk, line);
        let waiting = written(rt, input, text, told.end);
        input = lines::more(input, from, chunk);
        told = answered(told.board, input, waiting, memory, line, text);
    }
    told.end
}

fn main(rt: HostRuntime) {
    let mut memory = [0u8; MEMORY];
    let mut chunk = [0u8; lines::CHUNK];
    let mut line = [0u8; lines::LINE];
    let mut text = [0u8; TEXT];
    let told = BoardTold {
        board: board::reset(),
        end: 0,
    };
    let input = lines::begin();
    let mut from = rt.reader();
    let end = answer_all(
        &rt,
        &mut from,
        told,
        input,
        &mut memory,
        &mut chunk,
        &mut line,
        &mut text,
    );
    write_past(&rt, 0, &text, end);
}
