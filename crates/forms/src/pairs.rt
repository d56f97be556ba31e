// Bytes in words: pairs of hexadecimal digits, or `-` for none.
ghost use Rattle.std.specs.Prelude.{◌≡◌};
ghost use Rattle.forms.specs.Pairs.{all_digits, byte_count, byte_of, decoded, decode};

use crate::numbers::digit;

// Every character is a hexadecimal digit.
fn all_digits(word: &[u8]) -> bool
    ensures { result ≡ all_digits word.now }
{
    for c in word {
        if digit(*c).is_none() {
            return false;
        }
    }
    true
}

// How many bytes a word names. No line holds a word over 4,096 characters.
pub fn byte_count(word: &[u8]) -> Option<u32>
    ensures { result ≡ byte_count word.now }
{
    if words::is(word, b"-") {
        return Some(0);
    }
    if word.is_empty() || 4096 < word.len() || word.len() % 2 == 1 || !all_digits(word) {
        return None;
    }
    Some((word.len() / 2) as u32)
}

// The byte of two digits.
fn byte_of(high: u8, low: u8) -> u8
    ensures { result ≡ byte_of high low }
{
    let h = digit(high).unwrap_or(16);
    let l = digit(low).unwrap_or(16);
    ((h * 16 + l) % 256) as u8
}

// Puts the bytes that a word names at the front of `out`, as many as there is room for, and answers how many the word names.
pub fn decode(word: &[u8], out: &mut [u8]) -> usize
    ensures { decoded result out.new ≡ decode word.now out.old }
{
    let count = word.len() / 2;
    for n in 0..count {
        let b = byte_of(word[2 * n], word[2 * n + 1]);
        memory::store(out, n, &[b]);
    }
    count
}
