// Numbers in words: 1 to 8 digits, hexadecimal in either case, or decimal up to a limit.
ghost use Rattle.std.specs.Prelude.{◌≡◌, ◌<◌, ◌≤◌, unwrap_or, IfSome};
ghost use Rattle.forms.specs.Numbers.{digit, number_of, hexadecimal, decimal};

// What a digit stands for, in either case. None for a character that is no digit.
pub(crate) fn digit(c: u8) -> Option<u32>
    ensures value { unwrap_or result 16 ≡ digit c }
    ensures below { IfSome result (λ d. d < 16) }
{
    char::from(c).to_digit(16)
}

// The number of a word of 1 to 8 digits of a base.
fn number_of(word: &[u8], base: u32) -> Option<u32>
    requires { base ≤ 16 }
    ensures { result ≡ number_of base word.now }
{
    if word.is_empty() || 8 < word.len() {
        return None;
    }
    let mut n = 0;
    for c in word {
        let d = digit(*c)?;
        if base <= d {
            return None;
        }
        n = n * base + d;
    }
    Some(n)
}

pub fn hexadecimal(word: &[u8]) -> Option<u32>
    ensures { result ≡ hexadecimal word.now }
{
    number_of(word, 16)
}

pub fn decimal(word: &[u8], most: u32) -> Option<u32>
    ensures { result ≡ decimal word.now most }
{
    let n = number_of(word, 10)?;
    if most < n {
        return None;
    }
    Some(n)
}
