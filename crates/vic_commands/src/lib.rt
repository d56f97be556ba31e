// The console's commands of the interrupt controllers. Each writes its line.
#![tactic(auto)]

ghost use Rattle.std.specs.Prelude.{◌≡◌};
ghost use Rattle.vic_commands.specs.VicCommands.{reset, which_of, levels_set, vread, vwrite, inputs, irq, fiq, answer_to, given, tells};

use vic::Found;
use vic_pair::{Inputs, Vics, Which};
use vic_script::{VicCall, VicCommand};

// Both controllers, and the levels that `inputs` set.
#[derive(Clone, Copy)]
pub struct Controllers {
    pub vics: Vics,
    pub inputs: Inputs,
}

// The controllers that a command leaves, and where the text in the lent buffer ends.
#[derive(Clone, Copy)]
pub struct VicTold {
    pub controllers: Controllers,
    pub end: usize,
}

impl Controllers {
    // New ones, with all inputs low.
    pub fn reset() -> Controllers
        ensures { result ≡ reset }
    {
        Controllers {
            vics: Vics::reset(),
            inputs: Inputs::low(),
        }
    }
}

// The controller that a number names.
fn which_of(n: u32) -> Which
    ensures { result ≡ which_of n }
{
    if n == 0 { Which::Vic0 } else { Which::Vic1 }
}

#[tactic(auto, unfolding(crate::specs::VicCommands::vread))]
fn vread(
    c: Controllers,
    line: bool,
    which: Which,
    offset: u32,
    text: &mut [u8],
    at: usize,
) -> VicTold
    ensures { given result text.new ≡ tells (vread c line which offset) text.old at }
{
    let (number, found) = match vic::read(c.vics, c.inputs.with_line(line), which, offset) {
        Ok(found) => (answer::DONE, found),
        Err(refusal) => (
            u32::from(refusal),
            Found {
                value: 0,
                vics: c.vics,
            },
        ),
    };
    VicTold {
        controllers: Controllers {
            vics: found.vics,
            ..c
        },
        end: reports::read(text, at, b"vread", number, found.value),
    }
}

#[tactic(auto, unfolding(crate::specs::VicCommands::vwrite))]
fn vwrite(
    c: Controllers,
    which: Which,
    offset: u32,
    value: u32,
    text: &mut [u8],
    at: usize,
) -> VicTold
    ensures { given result text.new ≡ tells (vwrite c which offset value) text.old at }
{
    let (number, vics) = match vic::write(c.vics, which, offset, value) {
        Ok(vics) => (answer::DONE, vics),
        Err(refusal) => (u32::from(refusal), c.vics),
    };
    VicTold {
        controllers: Controllers { vics, ..c },
        end: replies::numbered(text, at, b"vwrite", u64::from(number)),
    }
}

// The levels with those of one controller set.
fn levels_set(set: Inputs, which: Which, value: u32) -> Inputs
    ensures { result ≡ levels_set set which value }
{
    let level = (value % 0x1_0000) as u16;
    match which {
        Which::Vic0 => Inputs { vic0: level, ..set },
        Which::Vic1 => Inputs { vic1: level, ..set },
    }
}

#[tactic(auto, unfolding(crate::specs::VicCommands::inputs))]
fn inputs(c: Controllers, which: Which, value: u32, text: &mut [u8], at: usize) -> VicTold
    ensures { given result text.new ≡ tells (inputs c which value) text.old at }
{
    VicTold {
        controllers: Controllers {
            inputs: levels_set(c.inputs, which, value),
            ..c
        },
        end: replies::said(text, at, b"inputs"),
    }
}

#[tactic(auto, unfolding(crate::specs::VicCommands::irq))]
fn irq(c: Controllers, line: bool, text: &mut [u8], at: usize) -> VicTold
    ensures { given result text.new ≡ tells (irq c line) text.old at }
{
    let answer = vic_answer::irq(c.vics, c.inputs.with_line(line));
    VicTold {
        controllers: c,
        end: vic_lines::irq(text, at, answer),
    }
}

#[tactic(auto, unfolding(crate::specs::VicCommands::fiq))]
fn fiq(c: Controllers, line: bool, text: &mut [u8], at: usize) -> VicTold
    ensures { given result text.new ≡ tells (fiq c line) text.old at }
{
    let high = c.vics.fiq(c.inputs.with_line(line));
    VicTold {
        controllers: c,
        end: replies::either(text, at, high, b"fiq 1", b"fiq 0"),
    }
}

// Makes one of them, with ENET's line as it is.
pub fn called(c: Controllers, line: bool, call: VicCall, text: &mut [u8], at: usize) -> VicTold
    ensures { given result text.new ≡ tells (answer_to call.command c line call.vic call.a call.b) text.old at }
{
    let which = which_of(call.vic);
    match call.command {
        VicCommand::Read => vread(c, line, which, call.a, text, at),
        VicCommand::Write => vwrite(c, which, call.a, call.b, text, at),
        VicCommand::Inputs => inputs(c, which, call.a, text, at),
        VicCommand::Irq => irq(c, line, text, at),
        VicCommand::Fiq => fiq(c, line, text, at),
    }
}
