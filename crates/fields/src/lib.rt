// Fields of a line in a buffer that the caller lends, each behind a space. Each function takes where the text so far ends, and
// answers where it ends then. What has no room is not written.
#![tactic(auto)]

ghost use Rattle.std.specs.Prelude.{◌≡◌, ◌<◌, ◌≤◌, length};
ghost use Rattle.text.specs.Text.{written, put as put_into};
ghost use Rattle.fields.specs.Fields.{digits as digits_of, number as number_of, glyph as glyph_of, pair as pair_of, pairs as pairs_of, bytes as bytes_of, value as value_of};

// The digits of a number, the last `most` of them.
fn digits(text: &mut [u8], at: usize, n: u64, most: u32) -> usize
    ensures { written result text.new ≡ put_into text.old at (digits_of most n) }
{
    if most == 0 {
        return text::put(text, at, b"");
    }
    let last = b'0' + (n % 10) as u8;
    if n < 10 {
        return text::character(text, at, last);
    }
    let end = digits(text, at, n / 10, most - 1);
    text::character(text, end, last)
}

// A number in decimal digits.
pub fn number(text: &mut [u8], at: usize, n: u64) -> usize
    ensures { written result text.new ≡ put_into text.old at (number_of n) }
{
    let end = text::character(text, at, b' ');
    digits(text, end, n, 20)
}

// The character of a digit.
fn glyph(d: u8) -> u8
    requires { d < 16 }
    ensures { result ≡ glyph_of d }
{
    if d < 10 { b'0' + d } else { b'a' - 10 + d }
}

// The two digits of a byte, with no space before them.
fn pair(text: &mut [u8], at: usize, b: u8) -> usize
    ensures { written result text.new ≡ put_into text.old at (pair_of b) }
{
    text::put(text, at, &[glyph(b / 16), glyph(b % 16)])
}

// The digits of bytes.
fn pairs(text: &mut [u8], at: usize, s: &[u8]) -> usize
    requires { at ≤ length text.old }
    ensures { written result text.new ≡ put_into text.old at (pairs_of s.now) }
{
    let mut end = at;
    for b in s {
        end = pair(text, end, *b);
    }
    end
}

// Bytes in pairs of hexadecimal digits, `-` for none.
pub fn bytes(text: &mut [u8], at: usize, s: &[u8]) -> usize
    ensures { written result text.new ≡ put_into text.old at (bytes_of s.now) }
{
    if s.is_empty() {
        return text::put(text, at, b" -");
    }
    let end = text::character(text, at, b' ');
    pairs(text, end, s)
}

// A value or an address in 8 hexadecimal digits.
pub fn value(text: &mut [u8], at: usize, v: u32) -> usize
    ensures { written result text.new ≡ put_into text.old at (value_of v) }
{
    let end = text::character(text, at, b' ');
    pairs(text, end, &v.to_be_bytes())
}
