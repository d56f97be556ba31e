// What the program says on standard output.
pub(crate) fn write<P: Print>(rt: &P, text: &[u8]) {
    let _ = rt.write_all(text);
}

// A line of a word, with the space behind it, and a number.
pub(crate) fn numbered<P: Print>(rt: &P, word: &[u8], n: u64) {
    write(rt, word);
    let _ = print!(rt; "{n}");
    write(rt, b"\n");
}

// A line of a word, with the space behind it, and two numbers.
pub(crate) fn counted<P: Print>(rt: &P, word: &[u8], a: u64, b: u64) {
    write(rt, word);
    let _ = print!(rt; "{a}");
    numbered(rt, b" ", b);
}
