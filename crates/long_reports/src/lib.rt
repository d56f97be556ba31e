// The lines of a name and four fields that the console writes: of a step run, and of both engines.
#![tactic(auto)]

ghost use Rattle.std.specs.Prelude.{◌≡◌};
ghost use Rattle.text.specs.Text.{written, put};
ghost use Rattle.long_reports.specs.LongReports.{counts, ran, engine, engines};

// The last answer of a step run, its steps and its bytes' number.
fn counts(text: &mut [u8], at: usize, n: u32, steps: u32, count: usize) -> usize
    ensures { written result text.new ≡ put text.old at (counts n steps count) }
{
    let end = fields::number(text, at, u64::from(n));
    let end = fields::number(text, end, u64::from(steps));
    fields::number(text, end, count as u64)
}

// A name, those, and bytes.
pub fn ran(
    text: &mut [u8],
    at: usize,
    name: &[u8],
    n: u32,
    steps: u32,
    count: usize,
    s: &[u8],
) -> usize
    ensures { written result text.new ≡ put text.old at (ran name.now n steps count s.now) }
{
    let end = text::put(text, at, name);
    let end = counts(text, end, n, steps, count);
    let end = fields::bytes(text, end, s);
    text::character(text, end, b'\n')
}

// Whether an engine runs, and its place.
fn engine(text: &mut [u8], at: usize, running: bool, place: u32) -> usize
    ensures { written result text.new ≡ put text.old at (engine running place) }
{
    let end = fields::number(text, at, u64::from(running));
    fields::value(text, end, place)
}

// A name and both engines.
pub fn engines(
    text: &mut [u8],
    at: usize,
    name: &[u8],
    rx: bool,
    rxat: u32,
    tx: bool,
    txat: u32,
) -> usize
    ensures { written result text.new ≡ put text.old at (engines name.now rx rxat tx txat) }
{
    let end = text::put(text, at, name);
    let end = engine(text, end, rx, rxat);
    let end = engine(text, end, tx, txat);
    text::character(text, end, b'\n')
}
