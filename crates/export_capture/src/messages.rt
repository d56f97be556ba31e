// What the program says on standard output.
use answer::Refusal;
use stream::Refused;

// Room for one line.
const LINE: usize = 64;

fn write<P: Print>(rt: &P, line: &[u8; LINE], n: usize) {
    let _ = rt.write_all(memory::part(line, 0, n));
}

fn numbered_line(line: &mut [u8; LINE], word: &[u8], n: u64) -> usize {
    replies::numbered(line, 0, word, n)
}

fn refused_line(line: &mut [u8; LINE], refused: Refused) -> usize {
    day_reports::refused(line, 0, u32::from(refused.refusal), refused.block as u64)
}

pub(crate) fn exported<P: Print>(rt: &P, frames: usize) {
    let mut line = [0u8; LINE];
    let n = numbered_line(&mut line, b"exported", frames as u64);
    write(rt, &line, n);
}

// A refusal of the export.
pub(crate) fn refused<P: Print>(rt: &P, refusal: Refusal) {
    let mut line = [0u8; LINE];
    let n = numbered_line(&mut line, b"refused", u64::from(u32::from(refusal)));
    write(rt, &line, n);
}

// A refusal of the trace, with its block where the reason is a block's.
pub(crate) fn refused_trace<P: Print>(rt: &P, refused: Refused) {
    let mut line = [0u8; LINE];
    let n = refused_line(&mut line, refused);
    write(rt, &line, n);
}
