// A day on a new bench, shown.
use day_lines::TEXT;

// The output that each send is lent.
const OUTPUT: usize = 1518;

// Writes the line of a refusal.
pub(crate) fn refused<P: Print>(rt: &P, number: u32, block: usize) {
    let mut text = [0u8; TEXT];
    day_lines::refused(rt, number, block, &mut text);
}

// The first line, those of the events over the bytes that are lent of the memory, and the last.
pub(crate) fn whole_day<P: Print>(
    rt: &P,
    base: u32,
    window: u32,
    events: &[u8],
    memory: &mut [u8],
    lent: usize,
) {
    let mut output = [0u8; OUTPUT];
    let mut text = [0u8; TEXT];
    let day = day_lines::begun(base, window, &mut text);
    let day = showing::all_lent(rt, day, events, memory, lent, &mut output, &mut text);
    day_lines::ended(rt, day, memory, &mut text);
}
