// The line of a name, a number and a list of numbers that the console writes: of a burst.
#![tactic(auto)]

ghost use Rattle.std.specs.Prelude.{◌≡◌, ◌≤◌, length};
ghost use Rattle.text.specs.Text.{written, put};
ghost use Rattle.fields.specs.Fields.{each, number};
ghost use Rattle.list_reports.specs.ListReports.{listed};

// A number of the list, behind a space.
fn one(text: &mut [u8], at: usize, n: u32) -> usize
    ensures { written result text.new ≡ put text.old at (number n) }
{
    fields::number(text, at, u64::from(n))
}

// All of them.
fn numbers(text: &mut [u8], at: usize, s: &[u32]) -> usize
    requires { at ≤ length text.old }
    ensures { written result text.new ≡ put text.old at (each number s.now) }
{
    let mut end = at;
    for n in s {
        end = one(text, end, *n);
    }
    end
}

// A name, a number and a list of numbers.
pub fn listed(text: &mut [u8], at: usize, name: &[u8], n: u32, s: &[u32]) -> usize
    ensures { written result text.new ≡ put text.old at (listed name.now n s.now) }
{
    let end = text::put(text, at, name);
    let end = one(text, end, n);
    let end = numbers(text, end, s);
    text::character(text, end, b'\n')
}
