// The filter registers, and what they say: receive-all, the filter mode, the station address.
#![tactic(auto)]

ghost use Rattle.std.specs.Prelude.{◌≡◌};
ghost use Rattle.filter.specs.Meaning.{receive_all, filter_mode, station_address};

// The filter registers: MAC control, MAC address high and low, multicast hash high and low.
#[derive(Clone, Copy)]
pub struct Filter {
    pub mcr: u32,
    pub mah: u32,
    pub mal: u32,
    pub mcha: u32,
    pub mcla: u32,
}

impl Filter {
    // Receive all, bit 31 of MAC control (RM0006 8.4.21).
    pub const RA: u32 = 0x8000_0000;

    // Address filtering mode, bits 19:17 of MAC control: the field's lowest bit, and how many modes
    // there are.
    pub const AFM_UNIT: u32 = 0x2_0000;

    pub const AFM_MODES: u32 = 8;

    // Mode 001: perfect address and multicast hash.
    pub const MULTICAST_HASH: u32 = 1;

    // Mode 101: perfect address with all multicast.
    pub const ALL_MULTICAST: u32 = 5;
}

// Whether MAC control says to receive all.
pub fn receive_all(control: u32) -> bool
    ensures { result ≡ receive_all control }
{
    control & Filter::RA != 0
}

// The filter mode that MAC control selects.
pub fn filter_mode(control: u32) -> u32
    ensures { result ≡ filter_mode control }
{
    control / Filter::AFM_UNIT % Filter::AFM_MODES
}

// The station address, its bytes in the order in which they are sent.
pub fn station_address(high: u32, low: u32) -> [u8; 6]
    ensures { result ≡ station_address high low }
{
    let [a, b, c, d] = low.to_le_bytes();
    let [e, f, ..] = high.to_le_bytes();
    [a, b, c, d, e, f]
}
