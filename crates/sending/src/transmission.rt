// What a send puts out and writes.
ghost use Rattle.sending.specs.Sending.{Transmitted};

use window::Window;

// Puts the bytes of the descriptor on the wire, says how many, and marks it returned.
pub(crate) fn transmit(window: Window, m: &mut [u8], place: u32, out: &mut [u8]) -> usize
    ensures { Transmitted window.base m.old place out.old result m.new out.new }
{
    let start = descriptor::start(window, m, place);
    let n = descriptor::count(window, m, place);
    let from = window.offset(start);
    let put = wire::put_wire(out, memory::part(m, from, n as usize));
    packet_status::set_packet_status(window, m, place, 0);
    put
}
