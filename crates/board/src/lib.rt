// The bench console with the device and the interrupt controllers side by side (docs/CONSOLE.md): one line is answered by one line, in
// a buffer that the caller lends.
#![tactic(auto)]

ghost use Rattle.std.specs.Prelude.{◌≡◌};
ghost use Rattle.board.specs.Board.{reset, called, renewed, elsewhere, answer, given, tells};

use commands::Console;
use vic_commands::Controllers;
use vic_script::VicCall;
use words::{first, is};

// The console, with the device in it, and the controllers.
#[derive(Clone, Copy)]
pub struct Board {
    pub console: Console,
    pub controllers: Controllers,
}

// The next board, and where the text in the lent buffer ends.
#[derive(Clone, Copy)]
pub struct BoardTold {
    pub board: Board,
    pub end: usize,
}

// Before the first line.
pub fn reset() -> Board
    ensures { result ≡ reset }
{
    Board {
        console: console::reset(),
        controllers: Controllers::reset(),
    }
}

// A line that calls the controllers; the memory stays.
fn called(board: Board, memory: &[u8], call: VicCall, text: &mut [u8], at: usize) -> BoardTold
    ensures { given result memory.now text.new ≡ tells (called board memory.now call) text.old at }
{
    let now = board.console;
    let told = vic_commands::called(
        board.controllers,
        now.device.interrupt_line(),
        call,
        text,
        at,
    );
    let controllers = told.controllers;
    BoardTold {
        board: Board {
            console: console::counted(now),
            controllers,
        },
        end: told.end,
    }
}

// The controllers after a line that does not call them.
fn renewed(line: &[u8], controllers: Controllers) -> Controllers
    ensures { result ≡ renewed line.now controllers }
{
    if !is(first(line), b"new") {
        return controllers;
    }
    let call = script::call_of(line);
    let command = call.command;
    if kinds::renews(command) {
        return Controllers::reset();
    }
    controllers
}

// Any other line.
fn elsewhere(board: Board, memory: &mut [u8], line: &[u8], text: &mut [u8], at: usize) -> BoardTold
    ensures { given result memory.new text.new ≡ tells (elsewhere board memory.old line.now) text.old at }
{
    let told = console::answer(board.console, memory, line, text, at);
    let console = told.console;
    BoardTold {
        board: Board {
            console,
            controllers: renewed(line, board.controllers),
        },
        end: told.end,
    }
}

// Answers one line, without its line feed.
pub fn answer(board: Board, memory: &mut [u8], line: &[u8], text: &mut [u8], at: usize) -> BoardTold
    ensures { given result memory.new text.new ≡ tells (answer board memory.old line.now) text.old at }
{
    match vic_script::vic_call_of(line) {
        Some(call) => called(board, memory, call, text, at),
        None => elsewhere(board, memory, line, text, at),
    }
}
