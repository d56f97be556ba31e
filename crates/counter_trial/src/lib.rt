// A device whose counters start anywhere, for programs in other languages (oracle/): so their stop is tried. Each function plays the
// events of a list of bytes and then makes a call that counts more than one frame; it puts what it found, as a list of numbers, at
// the front of `found`.
#![tactic(auto)]

ghost use Rattle.std.specs.Prelude.{◌≡◌, []};
ghost use Rattle.counters.specs.Counters.{made};
ghost use Rattle.enet.specs.Run.{running};
ghost use Rattle.pair.specs.Turn.{bursting};
ghost use Rattle.playback.specs.Playing.{played};
ghost use Rattle.counter_trial.specs.Trials.{started, play_on, run_numbers, run_told, run_then_tick, run_left, run_on, burst_numbers, burst_left, burst_on};

use counters::Counters;
use enet::{Answered, Enet, Ran};

// A new bench over a window, with these counters.
fn started(base: u32, window: u32, counters: Counters) -> Enet
    ensures { result ≡ started base window counters }
{
    let mut device = Enet::new(base, window).device;
    device.counters = counters;
    device
}

// The events of a list of bytes on such a bench.
fn played(
    base: u32,
    window: u32,
    counters: Counters,
    memory: &mut [u8],
    output: &mut [u8],
    events: &[u8],
    answers: &mut [u32],
) -> Enet
    ensures { played result memory.new output.new answers.new ≡ play_on base window counters memory.old output.old events.now answers.old }
{
    let device = started(base, window, counters);
    playback::play(device, memory, output, events, answers)
}

// What a step run and the tick behind it answered.
fn run_numbers(ran: Ran, t: Answered) -> [u64; 9]
    ensures { result ≡ run_numbers (running ran [] []) t }
{
    let counters = t.device.counters;
    [
        u64::from(ran.number),
        u64::from(ran.steps),
        ran.count as u64,
        u64::from(t.number),
        u64::from(counters.delivered),
        u64::from(counters.lost),
        u64::from(counters.sent),
        u64::from(counters.ticks),
        u64::from(t.device.registers.isr),
    ]
}

// What a burst answered.
fn burst_numbers(a: Answered) -> [u64; 6]
    ensures { result ≡ burst_numbers (bursting a [] []) }
{
    let counters = a.device.counters;
    [
        u64::from(a.number),
        u64::from(counters.delivered),
        u64::from(counters.lost),
        u64::from(counters.sent),
        u64::from(counters.ticks),
        u64::from(a.device.registers.isr),
    ]
}

// A step run, and a tick behind it.
fn ran(device: Enet, memory: &mut [u8], output: &mut [u8], allowance: u32) -> [u64; 9]
    ensures { run_told memory.new output.new result ≡ run_then_tick device memory.old output.old allowance }
{
    let r = device.run(memory, output, allowance);
    let t = r.device.tick(memory);
    run_numbers(r, t)
}

// Events, then a step run and a tick.
#[unsafe(no_mangle)]
pub extern "C" fn counter_trial_run(
    base: u32,
    window: u32,
    delivered: u32,
    lost: u32,
    sent: u32,
    count: u32,
    memory: &mut [u8],
    output: &mut [u8],
    events: &[u8],
    answers: &mut [u32],
    allowance: u32,
    found: &mut [u64],
)
    ensures { run_left memory.new output.new answers.new found.new ≡ run_on (play_on base window (made delivered lost sent count) memory.old output.old events.now answers.old) allowance found.old }
{
    let counters = Counters {
        delivered,
        lost,
        sent,
        ticks: count,
    };
    let device = played(base, window, counters, memory, output, events, answers);
    number_list::put(found, &ran(device, memory, output, allowance));
}

// Events, then a burst.
#[unsafe(no_mangle)]
pub extern "C" fn counter_trial_burst(
    base: u32,
    window: u32,
    delivered: u32,
    lost: u32,
    sent: u32,
    count: u32,
    memory: &mut [u8],
    output: &mut [u8],
    events: &[u8],
    answers: &mut [u32],
    store: &[u8],
    starts: &[u32],
    lengths: &[u32],
    list: &mut [u32],
    found: &mut [u64],
)
    ensures { burst_left memory.new output.new answers.new list.new found.new ≡ burst_on (play_on base window (made delivered lost sent count) memory.old output.old events.now answers.old) store.now starts.now lengths.now list.old found.old }
{
    let counters = Counters {
        delivered,
        lost,
        sent,
        ticks: count,
    };
    let device = played(base, window, counters, memory, output, events, answers);
    let a = burst::burst(device, memory, store, starts, lengths, list);
    number_list::put(found, &burst_numbers(a));
}
