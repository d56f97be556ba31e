// The device's calls in rounds, for C to time (benchmark/). The loops stand here so that a measurement is of the
// proved calls as they call each other, and not of the boundary to C.
#![tactic(auto)]

ghost use Rattle.std.specs.Prelude.{◌≡◌};
ghost use Rattle.enet.specs.Device.{outcome};
ghost use Rattle.enet.specs.Send.{sending};
ghost use Rattle.timing.specs.Timing.{bench, window_of, received};
ghost use Rattle.speed.specs.Rounds.{receive_round, receive_rounds, transmitted, send_round, send_rounds};

use enet::{Answered, Enet, Sent};
use window::Window;

// Grants the descriptor at address 0, and brings the frame in.
fn receive_round(device: Enet, memory: &mut [u8], frame: &[u8]) -> Answered
    ensures { outcome result memory.new ≡ receive_round device memory.old frame.now }
{
    let granted = device.grant(memory, 0).device;
    granted.receive(memory, frame)
}

// Rounds of frames in; how many were taken.
#[unsafe(no_mangle)]
pub extern "C" fn speed_receive(memory: &mut [u8], frame: &[u8], rounds: u32) -> u32
    ensures { received result memory.new ≡ receive_rounds rounds 0 (bench (window_of memory.old)) memory.old frame.now }
{
    let mut device = timing::bench((memory.len() % 0x1_0000_0000) as u32);
    let mut taken = 0;
    let mut left = rounds;
    while 0 < left {
        let a = receive_round(device, memory, frame);
        device = a.device;
        taken += timing::passed(a.number);
        left -= 1;
    }
    taken
}

// Writes VALID into the descriptor at address 0, as the firmware does, and sends its frame.
fn send_round(device: Enet, memory: &mut [u8], output: &mut [u8]) -> Sent
    ensures { sending result memory.new output.new ≡ send_round device memory.old output.old }
{
    let window = Window {
        base: 0,
        length: device.window,
    };
    packet_status::set_packet_status(window, memory, 0, packet_status::VALID);
    device.send(memory, output)
}

// Rounds of frames out; how many were sent.
#[unsafe(no_mangle)]
pub extern "C" fn speed_send(memory: &mut [u8], output: &mut [u8], rounds: u32) -> u32
    ensures { transmitted result memory.new output.new ≡ send_rounds rounds 0 (bench (window_of memory.old)) memory.old output.old }
{
    let mut device = timing::bench((memory.len() % 0x1_0000_0000) as u32);
    let mut gone = 0;
    let mut left = rounds;
    while 0 < left {
        let s = send_round(device, memory, output);
        device = s.device;
        gone += timing::passed(s.number);
        left -= 1;
    }
    gone
}
