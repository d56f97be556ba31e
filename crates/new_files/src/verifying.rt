// Whether a file holds what was written to it: two names may be of one file, and the second then has taken the first's place.
ghost use Rattle.std.specs.Prelude.{◌≤◌};

use crate::system;
use std::io::Read;
use std::rt::Files;

// What one read takes at most.
const CHUNK: usize = 4096;

// Reads into a chunk, and answers how many bytes.
fn filled<F: Read>(file: &mut F, chunk: &mut [u8; CHUNK]) -> usize
    ensures { result ≤ 4096 }
{
    file.read(chunk).unwrap_or(0)
}

// Whether an open file has these bytes and no more: behind them a read gives none.
fn has<F: Read>(file: &mut F, bytes: &[u8]) -> bool {
    let mut chunk = [0u8; CHUNK];
    let mut left = bytes;
    while !left.is_empty() {
        let n = filled(file, &mut chunk);
        if n == 0 {
            return false;
        }
        let Some(rest) = left.strip_prefix(&chunk[..n]) else {
            return false;
        };
        left = rest;
    }
    filled(file, &mut chunk) == 0
}

// Whether the file of this name holds what was written to it, these bytes and no more.
pub(crate) fn holds<R: Files>(rt: &R, path: &[u8], bytes: &[u8]) -> bool {
    match system::open_read(rt, path) {
        Ok(mut file) => has(&mut file, bytes),
        Err(_) => false,
    }
}
