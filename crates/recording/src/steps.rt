// The lines of a script by what they are to a recorded day.
ghost use Rattle.std.specs.Prelude.{◌≡◌};
ghost use Rattle.recording.specs.Recording.{step_of};

use script::Command;

// The window, the firmware's writes before the first event, and the events. A day has no other line.
#[derive(Clone, Copy)]
pub enum Step {
    New,
    Poke,
    Write,
    Grant,
    Frame,
    Send,
    Other,
}

pub(crate) fn step_of(command: Command) -> Step
    ensures { result ≡ step_of command }
{
    match command {
        Command::New => Step::New,
        Command::Poke => Step::Poke,
        Command::Write => Step::Write,
        Command::Grant => Step::Grant,
        Command::Frame => Step::Frame,
        Command::Send => Step::Send,
        _ => Step::Other,
    }
}
