// The arguments that are words: a window's base address and length, as in the console.
use arguments::WORD;
use forms::numbers;
use std::rt::Env;

// Whether both words are of their form, and what they say.
#[derive(Clone, Copy)]
pub(crate) struct Window {
    pub(crate) ok: bool,
    pub(crate) base: u32,
    pub(crate) length: u32,
}

fn none() -> Window {
    Window {
        ok: false,
        base: 0,
        length: 0,
    }
}

// Puts an argument at the front of a buffer, and answers its length.
fn fetch<R: Env>(rt: &R, i: usize, word: &mut [u8; WORD]) -> usize {
    arguments::fetch(rt, i, word)
}

// The word of so many characters.
fn part(word: &[u8; WORD], n: usize) -> &[u8] {
    memory::part(word, 0, n)
}

// Says that a word is wrong.
fn wrong<P: Print>(rt: &P, word: &[u8]) -> Window {
    arguments::wrong(rt, word);
    none()
}

// The window of a base address and a length.
fn of_words<P: Print>(rt: &P, base: &[u8], length: &[u8]) -> Window {
    let b = numbers::hexadecimal(base);
    let Some(base_number) = b else {
        return wrong(rt, base);
    };
    let l = numbers::decimal(length, 99_999_999);
    let Some(length_number) = l else {
        return wrong(rt, length);
    };
    Window {
        ok: true,
        base: base_number,
        length: length_number,
    }
}

// The window that two arguments name, or `error WORD` of the first that is not of its form.
pub(crate) fn read<R: Env + Print>(rt: &R, base: usize, length: usize) -> Window {
    let mut one = [0u8; WORD];
    let n = fetch(rt, base, &mut one);
    let mut two = [0u8; WORD];
    let k = fetch(rt, length, &mut two);
    of_words(rt, part(&one, n), part(&two, k))
}
