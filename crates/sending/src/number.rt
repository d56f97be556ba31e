// The number of a single send.
ghost use Rattle.std.specs.Prelude.{◌≡◌};
ghost use Rattle.answer.specs.Refusals.{number_of};
ghost use Rattle.sending.specs.Sending.{send_number};

use answer::Refusal;
use engine::Engine;
use window::Window;

// 11, 9, 3, 7 for the descriptor, 8, 7 for the buffer, 12, or 0.
#[tactic(auto, unfolding(crate::specs::Sending::send_number))]
pub(crate) fn number(window: Window, tx: Engine, m: &[u8], room: usize) -> Result<(), Refusal>
    ensures { number_of result ≡ send_number window.base window.length tx.running tx.place m.now room }
{
    if !window.lent(m) {
        return Err(Refusal::LentLength);
    }
    if room < 1518 {
        return Err(Refusal::OutputShort);
    }
    if !tx.running {
        return Err(Refusal::NotRunning);
    }
    let n = descriptor::count(window, m, tx.place);
    chain::number(window, m, tx.place, n as usize)?;
    if wire::send_length_wrong(n) {
        return Err(Refusal::SendLength);
    }
    Ok(())
}
