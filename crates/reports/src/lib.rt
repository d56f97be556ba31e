// The longer lines that the console writes: a name, its fields, and a line feed.
#![tactic(auto)]

ghost use Rattle.std.specs.Prelude.{◌≡◌};
ghost use Rattle.text.specs.Text.{written, put};
ghost use Rattle.reports.specs.Reports.{read, held, shown};

// A name, a number and a value.
pub fn read(text: &mut [u8], at: usize, name: &[u8], n: u32, v: u32) -> usize
    ensures { written result text.new ≡ put text.old at (read name.now n v) }
{
    let end = text::put(text, at, name);
    let end = fields::number(text, end, u64::from(n));
    let end = fields::value(text, end, v);
    text::character(text, end, b'\n')
}

// A name and bytes.
pub fn held(text: &mut [u8], at: usize, name: &[u8], s: &[u8]) -> usize
    ensures { written result text.new ≡ put text.old at (held name.now s.now) }
{
    let end = text::put(text, at, name);
    let end = fields::bytes(text, end, s);
    text::character(text, end, b'\n')
}

// A name, a number and bytes.
pub fn shown(text: &mut [u8], at: usize, name: &[u8], n: u32, s: &[u8]) -> usize
    ensures { written result text.new ≡ put text.old at (shown name.now n s.now) }
{
    let end = text::put(text, at, name);
    let end = fields::number(text, end, u64::from(n));
    let end = fields::bytes(text, end, s);
    text::character(text, end, b'\n')
}
