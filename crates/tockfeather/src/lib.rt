// The frame check and the address rule for C (include/tockfeather.h). A slice passes as its address
// and its length.
#![tactic(auto)]

ghost use Rattle.std.specs.Prelude.{◌≡◌};
ghost use Rattle.std.specs.Prelude.{if◌then◌else◌};
ghost use Rattle.fcs.specs.CheckSequence.{check_right};
ghost use Rattle.filter.specs.Filter.{filter_of};
ghost use Rattle.address_rule.specs.AddressRule.{address_rule};

use filter::Filter;

// 1 where the frame's check sequence is right, 0 where it is wrong.
#[unsafe(no_mangle)]
pub extern "C" fn tockfeather_frame_check(frame: &[u8]) -> u32
    ensures { result ≡ (if check_right frame.now then 1 else 0) }
{
    if fcs::check_right(frame) { 1 } else { 0 }
}

// What the address rule answers: own 1, broadcast 2, group 3, receive-all 4, not taken 0.
#[unsafe(no_mangle)]
pub extern "C" fn tockfeather_address_rule(
    frame: &[u8],
    control: u32,
    high: u32,
    low: u32,
    hash_high: u32,
    hash_low: u32,
) -> u32
    ensures { result ≡ address_rule (filter_of control high low hash_high hash_low) frame.now }
{
    let filter = Filter {
        mcr: control,
        mah: high,
        mal: low,
        mcha: hash_high,
        mcla: hash_low,
    };
    let reason = address_rule::apply(filter, frame);
    reason::number(reason)
}
