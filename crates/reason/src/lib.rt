// Why a frame was taken: the answers of the address rule, their numbers, and the packet status word of
// a delivered frame, which has the reason in it.
#![tactic(auto)]

ghost use Rattle.std.specs.Prelude.{◌≡◌};
ghost use Rattle.reason.specs.Reason.{named, reason_number};
ghost use Rattle.reason.specs.Status.{reason_bits, delivered_status};

// Why the address rule takes a frame, with the number that says so. It answers none where it does not take it.
#[derive(Clone, Copy, Debug, PartialEq, Eq)]
pub enum Reason {
    Own = 1,
    Broadcast = 2,
    Group = 3,
    ReceiveAll = 4,
}

impl Reason {
    // The broadcast bit of a packet status word, bit 28 (RM0006 8.2.2, Figure 62).
    const BROADCAST_FRAME: u32 = 0x1000_0000;

    // Its multicast bit, bit 27.
    const MULTICAST_FRAME: u32 = 0x0800_0000;
}

impl From<Reason> for u32 {
    ghost from_gives = { λ reason number. number ≡ named reason };

    fn from(reason: Reason) -> u32 {
        reason as u32
    }
}

// Its number: own, broadcast, group and receive-all 1 to 4, and 0 for not taken.
pub fn number(reason: Option<Reason>) -> u32
    ensures { result ≡ reason_number reason }
{
    match reason {
        Some(reason) => u32::from(reason),
        None => 0,
    }
}

// The bit of a packet status word that says the reason, or 0 where none does.
fn bits(reason: Option<Reason>) -> u32
    ensures { result ≡ reason_bits (reason_number reason) }
{
    match reason {
        Some(Reason::Broadcast) => Reason::BROADCAST_FRAME,
        Some(Reason::Group) => Reason::MULTICAST_FRAME,
        _ => 0,
    }
}

// The packet status word of a delivered frame: its length, and the bit of its reason.
pub fn status(reason: Option<Reason>, length: u16) -> u32
    ensures { result ≡ delivered_status (reason_number reason) length }
{
    bits(reason) + length as u32
}
