// Standard input into lines. A line is gathered in a buffer, since it may come in several chunks; what is past the buffer's end
// is not kept. A last part that no line feed follows is a line if it has a character.
#![tactic(auto)]

ghost use Rattle.std.specs.Prelude.{◌≡◌, ◌≤◌, length};
ghost use Rattle.lines.specs.Taking.{begin, taken, take};
ghost use Rattle.lines.specs.Reading.{More};

use std::io::Read;

// What one read takes at most.
pub const CHUNK: usize = 65536;

// One character more than the longest line, so that a longer one is seen to be too long.
pub const LINE: usize = 4097;

// How far reading is, after a part of the input.
#[derive(Clone, Copy)]
pub struct Input {
    // What is left of the chunk at hand starts here,
    pub from: usize,
    // and ends here.
    pub to: usize,
    // So many characters are kept of the line at hand.
    pub kept: usize,
    // Where the part ended a line, how many characters are kept of that one.
    pub ended: Option<usize>,
    // A proved loop has to end, and nothing says that an input does. So the parts that are taken of it are counted down,
    // from a number that no input uses up. Where the input has ended none is left.
    pub parts: usize,
}

// Before the first read.
pub fn begin() -> Input
    ensures { result ≡ begin }
{
    Input {
        from: 0,
        to: 0,
        kept: 0,
        ended: None,
        parts: usize::MAX,
    }
}

// Takes a part of the input: what the chunk at hand has of the line at hand, with its end if that is there.
pub fn take(input: Input, chunk: &[u8; CHUNK], line: &mut [u8; LINE]) -> Input
    ensures { taken result line.new ≡ take input chunk.now line.old }
{
    let left = memory::part(chunk, input.from, input.to.saturating_sub(input.from));
    let n = scanning::find(left, b'\n').unwrap_or(left.len());
    let kept = text::put(line, input.kept, memory::part(left, 0, n));
    let parts = input.parts.saturating_sub(1);
    if n < left.len() {
        return Input {
            from: input.from + n + 1,
            to: input.to,
            kept: 0,
            ended: Some(kept),
            parts,
        };
    }
    Input {
        from: 0,
        to: 0,
        kept,
        ended: None,
        parts,
    }
}

// One read of a chunk, and how many characters came. One that fails gives none, as at the input's end.
fn got<R: Read>(from: &mut R, chunk: &mut [u8; CHUNK]) -> usize
    ensures { result ≤ length chunk.new }
{
    from.read(chunk).unwrap_or(0)
}

// Where that part ended no line, reads the next chunk; where there is none, the input has ended.
pub fn more<R: Read>(input: Input, from: &mut R, chunk: &mut [u8; CHUNK]) -> Input
    ensures { More input result chunk.old chunk.new }
{
    if input.ended.is_some() {
        return input;
    }
    let to = got(from, chunk);
    if to == 0 {
        return Input {
            from: 0,
            to: 0,
            kept: 0,
            ended: (0 < input.kept).then_some(input.kept),
            parts: 0,
        };
    }
    Input {
        from: 0,
        to,
        kept: input.kept,
        ended: None,
        parts: input.parts,
    }
}
