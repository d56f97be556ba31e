// The short lines that the console writes: words, or a name and one field, and a line feed.
#![tactic(auto)]

ghost use Rattle.std.specs.Prelude.{◌≡◌};
ghost use Rattle.text.specs.Text.{written, put};
ghost use Rattle.replies.specs.Replies.{said, either, numbered, valued};

// Words alone.
pub fn said(text: &mut [u8], at: usize, words: &[u8]) -> usize
    ensures { written result text.new ≡ put text.old at (said words.now) }
{
    let end = text::put(text, at, words);
    text::character(text, end, b'\n')
}

// One of two.
pub fn either(text: &mut [u8], at: usize, holds: bool, a: &[u8], b: &[u8]) -> usize
    ensures { written result text.new ≡ put text.old at (either holds a.now b.now) }
{
    said(text, at, if holds { a } else { b })
}

// A name and a number.
pub fn numbered(text: &mut [u8], at: usize, name: &[u8], n: u64) -> usize
    ensures { written result text.new ≡ put text.old at (numbered name.now n) }
{
    let end = text::put(text, at, name);
    let end = fields::number(text, end, n);
    text::character(text, end, b'\n')
}

// A name and a value.
pub fn valued(text: &mut [u8], at: usize, name: &[u8], v: u32) -> usize
    ensures { written result text.new ≡ put text.old at (valued name.now v) }
{
    let end = text::put(text, at, name);
    let end = fields::value(text, end, v);
    text::character(text, end, b'\n')
}
