// The events of a recorded day as calls on a bench, one behind the other (02, Wish 4). A frame is lent from where it lies in the
// list of bytes, so no event is copied.
#![tactic(auto)]

ghost use Rattle.std.specs.Prelude.{◌≡◌, drop};
ghost use Rattle.event.specs.Front.{front, found};
ghost use Rattle.playback.specs.Playing.{bench_of, acting, act_as, played, play_into};
ghost use Rattle.playback.specs.Turns.{turn};

use enet::{Answered, Enet};
use event::Found;

// What an event gave: the number of its call, how many bytes it put at the front of the output, and the next device.
#[derive(Clone, Copy)]
pub struct Acted {
    pub number: u32,
    pub count: usize,
    pub device: Enet,
}

// A call that sends nothing.
fn sends_nothing(a: Answered) -> Acted
    ensures { result ≡ record { number = a.number; count = 0; device = a.device } }
{
    Acted {
        number: a.number,
        count: 0,
        device: a.device,
    }
}

// What is no event.
fn no_event(device: Enet) -> Acted
    ensures { result ≡ record { number = 22; count = 0; device = device } }
{
    Acted {
        number: answer::EVENT,
        count: 0,
        device,
    }
}

// What was found in a list, as a call. What is no event changes nothing and has number 22.
pub fn act(device: Enet, memory: &mut [u8], output: &mut [u8], list: &[u8], found: Found) -> Acted
    ensures { acting result memory.new output.new ≡ act_as (bench_of device memory.old) output.old list.now found }
{
    match found {
        Found::RegisterWrite(offset, value) => sends_nothing(device.write(offset, value)),
        Found::Grant(address) => sends_nothing(device.grant(memory, address)),
        Found::Frame(start, n) => sends_nothing(device.receive(
            memory,
            memory::part(list, start, n),
        )),
        Found::Send => {
            let s = device.send(memory, output);
            Acted {
                number: s.number,
                count: s.count,
                device: s.device,
            }
        }
        Found::Cut | Found::NoEvent => no_event(device),
    }
}

// What stands at a place of the list, as a call, and its answer at place i. The loop below only goes from place to place.
fn turn(
    device: Enet,
    memory: &mut [u8],
    output: &mut [u8],
    list: &[u8],
    place: usize,
    answers: &mut [u32],
    i: usize,
) -> Enet
    ensures { played result memory.new output.new answers.new ≡ turn (played device memory.old output.old answers.old) i list.now (found place (front (drop place list.now))) }
{
    let a = act(device, memory, output, list, event::at(list, place));
    pair::put_answer(answers, i, a.number);
    a.device
}

// The events of a list in order, each answer in its place, as far as the answers go; up to where there is no whole event.
pub fn play(
    device: Enet,
    memory: &mut [u8],
    output: &mut [u8],
    list: &[u8],
    answers: &mut [u32],
) -> Enet
    ensures { played result memory.new output.new answers.new ≡ play_into answers.old (bench_of device memory.old) output.old list.now }
{
    let mut last = device;
    let mut place = 0;
    let mut i = 0;
    let mut n = event::size_at(list, 0);
    while n != 0 {
        last = turn(last, memory, output, list, place, answers, i);
        place += n;
        i += 1;
        n = event::size_at(list, place);
    }
    last
}
