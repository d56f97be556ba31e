// The pairs of a burst in a line of the bench console, START LENGTH START LENGTH .. behind BYTES (docs/CONSOLE.md).
#![tactic(auto)]

ghost use Rattle.std.specs.Prelude.{◌≡◌, ◌+◌, ◌≤◌};
ghost use Rattle.memory.specs.Memory.{store};
ghost use Rattle.pair_words.specs.PairWords.{first_number, pairs_from, pairs_behind, every_other};

use forms::numbers::decimal;
use forms::pairs::byte_count;
use words::{first, rest, spaced};

// The greatest number of 8 decimal digits: no limit of its own.
const ANY: u32 = 99_999_999;

// The most pairs in a line.
const PAIRS: u32 = 66;

// The first word as a START or a LENGTH.
fn first_number(s: &[u8]) -> Option<u32>
    ensures { result ≡ first_number s.now }
{
    decimal(first(s), ANY)
}

// How many pairs there are, where n came before and `left` more may come.
fn pairs_from(s: &[u8], left: u32, n: u32) -> Option<u32>
    requires { n + left ≤ 66 }
    ensures { result ≡ pairs_from left n s.now }
{
    if left == 0 {
        return None;
    }
    first_number(s)?;
    let second = rest(s);
    first_number(second)?;
    if !spaced(second) {
        return Some(n + 1);
    }
    pairs_from(rest(second), left - 1, n + 1)
}

// How many pairs stand behind BYTES, which have to be right.
pub fn pairs_behind(words: &[u8]) -> Option<u32>
    ensures { result ≡ pairs_behind words.now }
{
    byte_count(first(words))?;
    if !spaced(words) {
        return Some(0);
    }
    pairs_from(rest(words), PAIRS, 0)
}

// Puts the numbers of n words, every other one from the first on, into `out` from an index on, as many as there is room for.
pub fn every_other(s: &[u8], n: usize, out: &mut [u32], at: usize)
    ensures { out.new ≡ store out.old at (every_other n s.now) }
{
    if n == 0 {
        return;
    }
    if out.len() <= at {
        return;
    }
    out[at] = first_number(s).unwrap_or(0);
    every_other(rest(rest(s)), n - 1, out, at + 1)
}
