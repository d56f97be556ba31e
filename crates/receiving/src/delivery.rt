// What a delivery writes.
ghost use Rattle.std.specs.Prelude.{◌≡◌, ◌≤◌, length};
ghost use Rattle.reason.specs.Reason.{reason_number};
ghost use Rattle.receiving.specs.Receiving.{delivered};

use reason::Reason;
use window::Window;

// Writes the frame and then the packet status word of the descriptor, with the reason in it.
#[tactic(auto, unfolding(crate::specs::Receiving::delivered))]
pub(crate) fn deliver(
    window: Window,
    m: &mut [u8],
    place: u32,
    reason: Option<Reason>,
    frame: &[u8],
)
    requires { length frame.now ≤ 1518 }
    ensures { m.new ≡ delivered window.base m.old place (reason_number reason) frame.now }
{
    let start = descriptor::start(window, m, place);
    memory::store(m, window.offset(start), frame);
    packet_status::set_packet_status(window, m, place, reason::status(reason, frame.len() as u16));
}
