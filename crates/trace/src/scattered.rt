// The used data of a trace's blocks where it lies, in full blocks but for the last.
ghost use Rattle.std.specs.Prelude.{◌+◌, ◌*◌, ◌/◌, ◌%◌, ◌^◌, ◌<◌, ◌≡◌};
ghost use Rattle.trace.specs.Scattered.{byte_in, word_in, size_in};

// Where a byte of it lies: behind its block's number and used length, and behind eight such bytes of each block before.
fn place(p: usize) -> usize
    requires { p < 2 ^ 63 }
    ensures { result ≡ 512 * (p / 504) + 4 + p % 504 }
{
    p + 8 * (p / 504) + 4
}

// A byte of it.
pub(crate) fn byte(trace: &[u8], p: usize) -> u8
    ensures { result ≡ byte_in trace.now p }
{
    if trace.len() <= p {
        return 0;
    }
    memory::byte(trace, place(p))
}

// The number of four bytes, which mostly lie in one block.
fn word(trace: &[u8], p: usize) -> u32
    ensures { result ≡ word_in trace.now p }
{
    if trace.len() <= p {
        return 0;
    }
    if p % 504 <= 500 {
        return memory::word(trace, place(p));
    }
    let four = [
        byte(trace, p),
        byte(trace, p + 1),
        byte(trace, p + 2),
        byte(trace, p + 3),
    ];
    memory::word(&four, 0)
}

// The size of the event at a place, where the data has so many bytes; 0 where there is no whole event. Only of a frame are the four
// bytes behind the first one looked at.
pub(crate) fn size(trace: &[u8], end: usize, p: usize) -> usize
    ensures { result ≡ size_in trace.now end p }
{
    if end <= p {
        return 0;
    }
    let first = byte(trace, p);
    if first == 3 {
        return event::size(first, word(trace, p + 1), end - p);
    }
    event::size(first, 0, end - p)
}
