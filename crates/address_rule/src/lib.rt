// The address rule: why a frame is taken, by its destination and the filter registers.
#![tactic(auto)]

ghost use Rattle.std.specs.Prelude.{◌≡◌};
ghost use Rattle.fcs.specs.Bytes.{same};
ghost use Rattle.reason.specs.Reason.{reason_number};
ghost use Rattle.address_rule.specs.AddressRule.{group_rule, address_rule};

use filter::Filter;
use reason::Reason;

// The same bytes in the same order, and no more. `starts_with` and `==` would load all six bytes of a destination before the first
// test (docs/PERFORMANCE.md).
fn same(a: &[u8], b: &[u8]) -> bool
    ensures { result ≡ same a.now b.now }
{
    if a.len() != b.len() {
        return false;
    }
    for i in 0..a.len() {
        if a[i] != b[i] {
            return false;
        }
    }
    true
}

// The group branch of the address rule: by the hash registers where the mode says so.
fn group(filter: Filter, address: &[u8]) -> Option<Reason>
    ensures { reason_number result ≡ reason_number (group_rule filter address.now) }
{
    match filter::filter_mode(filter.mcr) {
        Filter::MULTICAST_HASH => {
            hash::accepts(filter.mcha, filter.mcla, address).then_some(Reason::Group)
        }
        Filter::ALL_MULTICAST => Some(Reason::Group),
        _ => None,
    }
}

// The address rule: the first that applies takes the frame, or turns it away. Under six bytes there is
// no destination, and the frame is not taken.
pub fn apply(filter: Filter, frame: &[u8]) -> Option<Reason>
    ensures { reason_number result ≡ address_rule filter frame.now }
{
    if frame.len() < 6 {
        return None;
    }
    if filter::receive_all(filter.mcr) {
        return Some(Reason::ReceiveAll);
    }
    let destination = &frame[..6];
    if same(destination, b"\xff\xff\xff\xff\xff\xff") {
        return Some(Reason::Broadcast);
    }
    if frame[0] % 2 == 1 {
        return group(filter, destination);
    }
    let station = filter::station_address(filter.mah, filter.mal);
    same(destination, &station).then_some(Reason::Own)
}
