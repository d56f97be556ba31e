// Reading, writing and replay of a trace for programs in other languages, to try and to time them (oracle/, benchmark/). Each puts
// its answer, as a list of numbers, at the front of `found`.
#![tactic(auto)]

ghost use Rattle.std.specs.Prelude.{◌≡◌};
ghost use Rattle.memory.specs.Memory.{store};
ghost use Rattle.trace.specs.Reading.{summary_of, read};
ghost use Rattle.trace_writing.specs.Writing.{written_of, write};
ghost use Rattle.replaying.specs.Replay.{replayed_of};
ghost use Rattle.trace_trial.specs.Numbers.{summary_numbers, written_numbers, flag, replayed_numbers, left, replayed};

use answer::Refusal;
use enet::Enet;
use replaying::Replayed;
use stream::Refused;
use trace::Summary;

// A test as a number.
fn flag(t: bool) -> u64
    ensures { result ≡ flag t }
{
    if t { 1 } else { 0 }
}

// What reading answered.
fn summary_numbers(read: Result<Summary, Refused>) -> [u64; 6]
    ensures { result ≡ summary_numbers (summary_of read) }
{
    match read {
        Ok(summary) => [
            0,
            0,
            summary.base as u64,
            summary.window as u64,
            summary.bytes as u64,
            summary.events as u64,
        ],
        Err(refused) => [
            u32::from(refused.refusal) as u64,
            refused.block as u64,
            0,
            0,
            0,
            0,
        ],
    }
}

// Reads a trace into a room.
#[unsafe(no_mangle)]
pub extern "C" fn trace_trial_read(trace: &[u8], room: &mut [u8], found: &mut [u64])
    ensures { (room.new ≡ (read trace.now room.old).room) × (found.new ≡ store found.old 0 (summary_numbers (read trace.now room.old).summary)) }
{
    let read = trace::read(trace, room);
    number_list::put(found, &summary_numbers(read));
}

// What writing answered.
fn written_numbers(written: Result<usize, Refusal>) -> [u64; 2]
    ensures { result ≡ written_numbers (written_of written) }
{
    match written {
        Ok(blocks) => [0, blocks as u64],
        Err(refusal) => [u32::from(refusal) as u64, 0],
    }
}

// Writes a trace into a room.
#[unsafe(no_mangle)]
pub extern "C" fn trace_trial_write(
    base: u32,
    window: u32,
    events: &[u8],
    room: &mut [u8],
    found: &mut [u64],
)
    ensures { (room.new ≡ (write base window events.now room.old).room) × (found.new ≡ store found.old 0 (written_numbers (write base window events.now room.old).written)) }
{
    let written = trace_writing::write(base, window, events, room);
    number_list::put(found, &written_numbers(written));
}

// The numbers of a replay, with those of its device.
fn numbers_of(number: u32, block: usize, bytes: usize, events: usize, device: Enet) -> [u64; 28]
    ensures { result ≡ replayed_numbers (record { number = number; block = block; bytes = bytes; events = events; device = device }) }
{
    let registers = device.registers;
    let filter = registers.filter;
    let rx = registers.rx;
    let tx = registers.tx;
    let counters = device.counters;
    [
        number as u64,
        block as u64,
        bytes as u64,
        events as u64,
        device.base as u64,
        device.window as u64,
        registers.isr as u64,
        registers.ier as u64,
        filter.mcr as u64,
        filter.mah as u64,
        filter.mal as u64,
        filter.mcha as u64,
        filter.mcla as u64,
        rx.start as u64,
        rx.next as u64,
        flag(rx.running),
        rx.place as u64,
        flag(rx.polling),
        tx.start as u64,
        tx.next as u64,
        flag(tx.running),
        tx.place as u64,
        flag(tx.polling),
        registers.txtor as u64,
        counters.delivered as u64,
        counters.lost as u64,
        counters.sent as u64,
        counters.ticks as u64,
    ]
}

// What a replay answered.
fn replayed_numbers(replayed: Result<Replayed, replaying::Refused>) -> [u64; 28]
    ensures { result ≡ replayed_numbers (replayed_of replayed) }
{
    match replayed {
        Ok(day) => numbers_of(0, 0, day.bytes, day.events, day.device),
        Err(refused) => numbers_of(
            u32::from(refused.refusal),
            refused.block,
            0,
            0,
            refused.device,
        ),
    }
}

// Replays a trace.
#[unsafe(no_mangle)]
pub extern "C" fn trace_trial_replay(
    trace: &[u8],
    room: &mut [u8],
    memory: &mut [u8],
    output: &mut [u8],
    answers: &mut [u32],
    found: &mut [u64],
)
    ensures { left room.new memory.new output.new answers.new found.new ≡ replayed trace.now room.old memory.old output.old answers.old found.old }
{
    let replayed = replaying::replay(trace, room, memory, output, answers);
    number_list::put(found, &replayed_numbers(replayed));
}
