// Reads one raw frame from standard input, at most 1,519 bytes, and writes how many bytes it took
// and the first of the refusals 4, 5 and 6 that the frame meets, or 0.
#![tactic(auto)]

ghost use Rattle.std.specs.Prelude.{◌+◌, ◌≤◌, length};

use filter::Filter;
use std::io::Read;

// Receive-all and all-multicast off.
const CONTROL: u32 = 0;

// Station 02-00-00-00-00-01, the first byte on the wire the least significant of STATION_LOW.
const STATION_HIGH: u32 = 0x0000_0100;

const STATION_LOW: u32 = 0x0000_0002;

// One read into the buffer behind so many bytes, and how many came. One that fails gives none, as at the input's end.
fn read_more<R: Read>(from: &mut R, buffer: &mut [u8], done: usize) -> usize
    requires { done ≤ length buffer.old }
    ensures { done + result ≤ length buffer.new }
{
    match from.read(&mut buffer[done..]) {
        Ok(n) => n,
        Err(_) => 0,
    }
}

// Reads until the buffer is full or the input ends, and answers how many bytes are at the buffer's front.
fn read_full<R: Read>(from: &mut R, buffer: &mut [u8]) -> usize
    ensures { result ≤ length buffer.new }
{
    let mut done = 0;
    while done < buffer.len() {
        let n = read_more(from, buffer, done);
        if n == 0 {
            return done;
        }
        done += n;
    }
    done
}

fn main(rt: HostRuntime) {
    // One byte more than the longest frame, so that a longer input is seen to be too long.
    let mut input = [0u8; 1519];
    let n = read_full(&mut rt.reader(), &mut input);
    let filter = Filter {
        mcr: CONTROL,
        mah: STATION_HIGH,
        mal: STATION_LOW,
        mcha: 0,
        mcla: 0,
    };
    let reason = address_rule::apply(filter, &input[..n]);
    let number = answer::number_of(&frame::frame_number(reason, &input[..n]));
    let _ = println!(rt; "length {n}");
    let _ = println!(rt; "verdict {number}");
}
