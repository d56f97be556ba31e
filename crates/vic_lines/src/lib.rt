// The line that tells the IRQ answer (docs/CONSOLE.md).
#![tactic(auto)]

ghost use Rattle.std.specs.Prelude.{◌≡◌};
ghost use Rattle.text.specs.Text.{written, put};
ghost use Rattle.vic_lines.specs.VicLines.{irq_says};

use vic_answer::Request;
use vic_pair::Which;

// Writes the IRQ answer.
#[tactic(auto, unfolding(crate::specs::VicLines::irq_says))]
pub fn irq(text: &mut [u8], at: usize, answer: Option<Request>) -> usize
    ensures { written result text.new ≡ put text.old at (irq_says answer) }
{
    let Some(request) = answer else {
        return replies::said(text, at, b"irq none");
    };
    let name: &[u8] = match request.which {
        Which::Vic0 => b"irq 0",
        Which::Vic1 => b"irq 1",
    };
    reports::read(text, at, name, request.input, request.vector)
}
