// The call of the device that takes a burst of frames into the memory that it is lent. It writes its line.
#![tactic(auto)]

ghost use Rattle.std.specs.Prelude.{◌≡◌, ◌≤◌, length, take};
ghost use Rattle.words.specs.Words.{first, rest};
ghost use Rattle.forms.specs.Pairs.{named};
ghost use Rattle.pair_words.specs.PairWords.{every_other};
ghost use Rattle.commands.specs.Answers.{given, tells};
ghost use Rattle.commands.specs.Commands.{answer_list, starts, lengths, burst};

use commands::{Console, Told};
use forms::pairs;
use words::{first, rest};

// The most pairs, and the longest answer list.
const MOST: usize = 66;

// Makes the call, with its lists in hand.
fn call(
    console: Console,
    room: u32,
    store: &[u8],
    starts: &[u32],
    lengths: &[u32],
    memory: &mut [u8],
    text: &mut [u8],
    at: usize,
) -> Told
    ensures { given result memory.new text.new ≡ tells (burst console memory.old store.now starts.now lengths.now (answer_list room)) text.old at }
{
    let mut all = [99; MOST];
    let k = commands::within(room as usize, MOST);
    let n = commands::within(console.lent, memory.len());
    let answers = &mut all[..k];
    let a = burst::burst(
        console.device,
        &mut memory[..n],
        store,
        starts,
        lengths,
        answers,
    );
    let end = list_reports::listed(text, at, b"burst", a.number, answers);
    commands::next(console, a.device, end)
}

// The numbers of n words, every other one from the first on.
fn numbers(s: &[u8], n: usize) -> [u32; MOST]
    requires { n ≤ 66 }
    ensures { (take n result ≡ every_other n s.now) × (66 ≡ length result) }
{
    let mut all = [0; MOST];
    pair_words::every_other(s, n, &mut all, 0);
    all
}

// The burst of a line, of so many pairs, into an answer list of `room` numbers.
pub fn burst(
    console: Console,
    room: u32,
    count: u32,
    line: &[u8],
    memory: &mut [u8],
    text: &mut [u8],
    at: usize,
) -> Told
    ensures { given result memory.new text.new ≡ tells (burst console memory.old (named (first (rest (rest line.now)))) (starts count line.now) (lengths count line.now) (answer_list room)) text.old at }
{
    let words = rest(rest(line));
    // Room for the bytes that a line names.
    let mut bytes = [0; 2048];
    let n = pairs::decode(first(words), &mut bytes);
    let p = commands::within(count as usize, MOST);
    let behind = rest(words);
    let starts = numbers(behind, p);
    let lengths = numbers(rest(behind), p);
    let store = memory::part(&bytes, 0, n);
    call(
        console,
        room,
        store,
        &starts[..p],
        &lengths[..p],
        memory,
        text,
        at,
    )
}
