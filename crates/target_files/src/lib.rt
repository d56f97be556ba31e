// Files that arguments of the program name, made: one, or two together or not at all. Where one cannot be made, that is said on standard
// output: `error NAME`. What the system's calls do is assumed; proved is that each function is safe and ends, and what its contract says
// of its answer.
#![tactic(auto)]

ghost use Rattle.std.specs.Prelude.{◌≤◌};

use arguments::WORD;
use std::rt::{Env, Files};

// Makes the file of a name, and where it cannot be made says so.
fn make_or_say<R: Files + Print>(rt: &R, path: &[u8], bytes: &[u8]) -> u32
    ensures { result ≤ 1 }
{
    let lacking = new_files::make(rt, path, bytes);
    if lacking == 1 {
        arguments::wrong(rt, path);
    }
    lacking
}

// Makes the files of two names, or none, and where one cannot be made says so.
fn make_both_or_say<R: Files + Print>(
    rt: &R,
    first: &[u8],
    a: &[u8],
    second: &[u8],
    b: &[u8],
) -> u32
    ensures { result ≤ 2 }
{
    let failed = new_files::make_both(rt, first, a, second, b);
    match failed {
        1 => arguments::wrong(rt, first),
        2 => arguments::wrong(rt, second),
        _ => false,
    };
    failed
}

// Makes the file that an argument names. Answers 0 where it is made, 1 where it cannot be.
pub fn make<R: Env + Files + Print>(rt: &R, i: usize, bytes: &[u8]) -> u32
    ensures { result ≤ 1 }
{
    let mut name = [0u8; WORD];
    let n = arguments::fetch(rt, i, &mut name);
    make_or_say(rt, &name[..n], bytes)
}

// Makes the files that two arguments name. Answers 0 where both are made, 1 where the first cannot be, 2 where the second cannot be;
// then neither is.
pub fn make_both<R: Env + Files + Print>(
    rt: &R,
    first: usize,
    a: &[u8],
    second: usize,
    b: &[u8],
) -> u32
    ensures { result ≤ 2 }
{
    let mut one = [0u8; WORD];
    let n = arguments::fetch(rt, first, &mut one);
    let mut two = [0u8; WORD];
    let k = arguments::fetch(rt, second, &mut two);
    make_both_or_say(rt, &one[..n], a, &two[..k], b)
}
