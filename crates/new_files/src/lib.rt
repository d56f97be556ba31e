// A file made, or two files made together or none. Where one cannot be made everything is as it was, and no temporary file is left. What
// the system's calls do is assumed; proved is that each function is safe and ends, and what its contract says of its answer.
#![tactic(auto)]

mod placing;
mod system;
mod temporary;
mod verifying;

ghost use Rattle.std.specs.Prelude.{◌≤◌};

use placing::Lacking;
use std::rt::Files;
use temporary::{Name, written};

// Makes a file: 0 where it is made, 1 where it cannot be. It is written before it is put in its place.
pub fn make<R: Files>(rt: &R, path: &[u8], bytes: &[u8]) -> u32
    ensures { result ≤ 1 }
{
    let Some(name) = written(rt, path, path, bytes) else {
        return 1;
    };
    u32::from(placing::place(rt, &name, path).is_err())
}

// Makes two files, or none: 0 where both are made, 1 where the first cannot be, 2 where the second cannot be. Both are
// written before either is put in its place. One name for both can hold one of them only.
pub fn make_both<R: Files>(rt: &R, first: &[u8], a: &[u8], second: &[u8], b: &[u8]) -> u32
    ensures { result ≤ 2 }
{
    match both(rt, first, a, second, b) {
        Ok(()) => 0,
        Err(Lacking::First) => 1,
        Err(Lacking::Second) => 2,
    }
}

// The same, by name.
fn both<R: Files>(rt: &R, first: &[u8], a: &[u8], second: &[u8], b: &[u8]) -> Result<(), Lacking> {
    let Some(one) = written(rt, first, second, a) else {
        return Err(Lacking::First);
    };
    let two = second_written(rt, first, second, b);
    let kept = written(rt, first, second, b"");
    placing::place_both(rt, &one, first, a, kept, two, second)
}

// The second of two files under a temporary name, where it can be made.
fn second_written<R: Files>(rt: &R, first: &[u8], second: &[u8], b: &[u8]) -> Option<Name> {
    if first == second {
        return None;
    }
    written(rt, second, first, b)
}
