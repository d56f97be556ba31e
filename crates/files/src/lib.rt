// A file that an argument of the program names, read whole. What the system's calls do is assumed; proved is that each
// function is safe and ends, and what its contract says of its answer.
#![tactic(auto)]

mod reading;

ghost use Rattle.std.specs.Prelude.{◌≤◌, min, ◌≡◌, length, take, IfOk, IfSome};

use arguments::WORD;
use std::fs::File;
use std::io::{Error, ErrorKind, Result};
use std::rt::{Env, Files};
use std::str;

// What was read of a file: how many of its bytes are at the buffer's front, and whether it has more than those.
#[derive(Clone, Copy)]
pub struct Got {
    pub count: usize,
    pub more: bool,
}

// How many bytes of a buffer are taken, where at most n are: n, or all of them where that is less.
pub fn within(n: usize, buffer: &[u8]) -> usize
    ensures least { result ≡ min n (length buffer.now) }
    ensures front { (result ≤ length buffer.now) × (result ≡ length (take result buffer.now)) }
{
    n.min(buffer.len())
}

// Reads a file until it ends or the buffer is full. A folder cannot be read, nor a file whose name is no UTF-8.
fn read<R: Files>(rt: &R, path: &[u8], buffer: &mut [u8]) -> Result<Got>
    ensures { IfOk result (λ got. got.count ≤ length buffer.new) }
{
    let Ok(name) = str::from_utf8(path) else {
        return Err(Error::from(ErrorKind::InvalidInput));
    };
    let mut file = File::open(rt, name)?;
    reading::read_all(&mut file, buffer)
}

// Reads the file that an argument names. Where it cannot be read, that is said on standard output: `error NAME`.
pub fn load<R: Env + Files + Print>(rt: &R, i: usize, buffer: &mut [u8]) -> Option<Got>
    ensures { IfSome result (λ got. got.count ≤ length buffer.new) }
{
    let mut name = [0u8; WORD];
    let n = arguments::fetch(rt, i, &mut name);
    let got = read(rt, &name[..n], buffer).ok();
    if got.is_none() {
        arguments::wrong(rt, &name[..n]);
    }
    got
}
