// The arguments of a program: how many there are, one of them as a word, and the line that says that it does not serve. What the system's
// calls do is assumed; proved is that each function is safe and ends, and what its contract says of its answer.
#![tactic(auto)]

ghost use Rattle.std.specs.Prelude.{◌≤◌, ◌≡◌, false, length};

use std::env::FillError;
use std::rt::Env;

// No argument that the system hands to a program is longer.
pub const WORD: usize = 131_072;

// Whether the program was started with an argument of this number.
fn is_given(rt: &impl Env, i: usize) -> bool {
    let mut byte = [0u8; 1];
    !matches!(rt.arg(i, &mut byte), Err(FillError::NotPresent))
}

// How many arguments the program was started with, its own name among them: `most` where there are more.
pub fn count(rt: &impl Env, most: usize) -> usize
    ensures { result ≤ most }
{
    for i in 0..most {
        if !is_given(rt, i) {
            return i;
        }
    }
    most
}

// Puts an argument at the front of a buffer, and answers its length.
pub fn fetch(rt: &impl Env, i: usize, word: &mut [u8]) -> usize
    ensures { result ≤ length word.new }
{
    rt.arg(i, word).unwrap_or(0)
}

// Says on standard output that a word, or the file of this name, does not serve: `error WORD`. The answer is that it does not.
pub fn wrong(rt: &impl Print, word: &[u8]) -> bool
    ensures { result ≡ false }
{
    let _ = rt.write_all(b"error ");
    let _ = rt.write_all(word);
    let _ = rt.write_all(b"\n");
    false
}
