// A line of the bench console as a call of the interrupt controllers (docs/CONSOLE.md).
#![tactic(auto)]

ghost use Rattle.std.specs.Prelude.{◌≡◌};
ghost use Rattle.vic_script.specs.VicCalls.{given, vic_of, alone, write_of, with_words, vic_call_of};

use forms::numbers::hexadecimal;
use words::{first, is, rest, spaced};

// What is called.
#[derive(Clone, Copy)]
pub enum VicCommand {
    Read,
    Write,
    Inputs,
    Irq,
    Fiq,
}

// A command with its controller and its numbers in the line's order, 0 where it takes fewer.
#[derive(Clone, Copy)]
pub struct VicCall {
    pub command: VicCommand,
    pub vic: u32,
    pub a: u32,
    pub b: u32,
}

// A command with its numbers, if each is right.
fn given(command: VicCommand, vic: Option<u32>, a: Option<u32>, b: Option<u32>) -> Option<VicCall>
    ensures { result ≡ given command vic a b }
{
    Some(VicCall {
        command,
        vic: vic?,
        a: a?,
        b: b?,
    })
}

// A controller by its digit.
fn vic_of(word: &[u8]) -> Option<u32>
    ensures { result ≡ vic_of word.now }
{
    if is(word, b"0") {
        return Some(0);
    }
    if is(word, b"1") {
        return Some(1);
    }
    None
}

// A line of one word.
fn alone(name: &[u8]) -> Option<VicCall>
    ensures { result ≡ alone name.now }
{
    let none = Some(0);
    if is(name, b"irq") {
        return given(VicCommand::Irq, none, none, none);
    }
    if is(name, b"fiq") {
        return given(VicCommand::Fiq, none, none, none);
    }
    None
}

// A controller, an offset and a value.
fn write_of(vic: &[u8], words: &[u8]) -> Option<VicCall>
    ensures { result ≡ write_of vic.now words.now }
{
    let offset = hexadecimal(first(words));
    let value = hexadecimal(rest(words));
    given(VicCommand::Write, vic_of(vic), offset, value)
}

// A line of three words or more.
fn with_words(name: &[u8], vic: &[u8], words: &[u8]) -> Option<VicCall>
    ensures { result ≡ with_words name.now vic.now words.now }
{
    let none = Some(0);
    if is(name, b"vread") {
        return given(VicCommand::Read, vic_of(vic), hexadecimal(words), none);
    }
    if is(name, b"inputs") {
        return given(VicCommand::Inputs, vic_of(vic), hexadecimal(words), none);
    }
    if is(name, b"vwrite") {
        return write_of(vic, words);
    }
    None
}

// The call of the interrupt controllers that a line names.
pub fn vic_call_of(line: &[u8]) -> Option<VicCall>
    ensures { result ≡ vic_call_of line.now }
{
    if !spaced(line) {
        return alone(line);
    }
    let behind = rest(line);
    if !spaced(behind) {
        return None;
    }
    with_words(first(line), first(behind), rest(behind))
}
