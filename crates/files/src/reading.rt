// A file that is open, read to its end or as far as there is room.
ghost use Rattle.std.specs.Prelude.{◌+◌, ◌≤◌, length, IfOk};

use crate::Got;
use std::io::{Read, Result};

// Whether there is another byte: one is read, and not kept.
fn has_more<F: Read>(file: &mut F) -> Result<bool> {
    let n = file.read(&mut [0u8; 1])?;
    Ok(0 < n)
}

// One read into the buffer behind so many bytes, and how many came. None is the file's end.
fn read_more<F: Read>(file: &mut F, buffer: &mut [u8], from: usize) -> Result<usize>
    requires { from ≤ length buffer.old }
    ensures { IfOk result (λ n. from + n ≤ length buffer.new) }
{
    file.read(&mut buffer[from..])
}

// Reads until the file ends or the buffer is full.
pub(crate) fn read_all<F: Read>(file: &mut F, buffer: &mut [u8]) -> Result<Got>
    ensures { IfOk result (λ got. got.count ≤ length buffer.new) }
{
    let mut count = 0;
    while count < buffer.len() {
        let n = read_more(file, buffer, count)?;
        if n == 0 {
            return Ok(Got { count, more: false });
        }
        count += n;
    }
    let more = has_more(file)?;
    Ok(Got { count, more })
}
