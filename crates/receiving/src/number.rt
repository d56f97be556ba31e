// The number of a receive.
ghost use Rattle.std.specs.Prelude.{◌≡◌};
ghost use Rattle.reason.specs.Reason.{reason_number};
ghost use Rattle.answer.specs.Refusals.{number_of};
ghost use Rattle.receiving.specs.Receiving.{receive_number_of};

use answer::Refusal;
use engine::Engine;
use reason::Reason;
use window::Window;

// 11, 3, 4, 5, 6, 7 for the descriptor, 8, 7 for the buffer, or 0.
#[tactic(auto, unfolding(crate::specs::Receiving::receive_number))]
pub(crate) fn number(
    window: Window,
    rx: Engine,
    reason: Option<Reason>,
    m: &[u8],
    frame: &[u8],
) -> Result<(), Refusal>
    ensures { number_of result ≡ receive_number_of window.base window.length rx (reason_number reason) m.now frame.now }
{
    if !window.lent(m) {
        return Err(Refusal::LentLength);
    }
    if !rx.running {
        return Err(Refusal::NotRunning);
    }
    frame::frame_number(reason, frame)?;
    chain::number(window, m, rx.place, frame.len())
}
