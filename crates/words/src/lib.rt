// The words of a line of the bench console, which stand between single spaces (docs/CONSOLE.md).
#![tactic(auto)]

ghost use Rattle.std.specs.Prelude.{◌≡◌};
ghost use Rattle.words.specs.Words.{is, spaced, first, rest};

use scanning::find;

// Another word follows the first.
pub fn spaced(s: &[u8]) -> bool
    ensures { result ≡ spaced s.now }
{
    find(s, b' ').is_some()
}

// What stands before the first space.
pub fn first(s: &[u8]) -> &[u8]
    ensures { result.now ≡ first s.now }
{
    match find(s, b' ') {
        Some(n) => &s[..n],
        None => s,
    }
}

// What follows the first space.
pub fn rest(s: &[u8]) -> &[u8]
    ensures { result.now ≡ rest s.now }
{
    match find(s, b' ') {
        Some(n) => &s[n + 1..],
        None => &[],
    }
}

// A word is this one.
pub fn is(word: &[u8], name: &[u8]) -> bool
    ensures { result ≡ is word.now name.now }
{
    word == name
}
