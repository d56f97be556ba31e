// The frames of a capture put into two rooms: their events, and their times.
ghost use Rattle.std.specs.Prelude.{◌+◌, ◌^◌, ◌<◌, ◌≡◌, ◌∷◌, length, drop};
ghost use Rattle.memory.specs.Memory.{word_bytes, store};
ghost use Rattle.event.specs.Event.{bytes_of};
ghost use Rattle.pcap_records.specs.Records.{captured_of, frames_of};
ghost use Rattle.pcap_import.specs.Import.{frame_event, events_of, time_bytes, times_of};

use pcap_records::Records;

// The first bytes of a frame event: which event it is, and how many bytes the frame has.
#[tactic(auto, unfolding(memory::specs::Memory::word_bytes))]
fn head(n: usize) -> [u8; 5]
    ensures { result ≡ 3 ∷ word_bytes n }
{
    let [a, b, c, d] = pcap::low_bytes(n);
    [3, a, b, c, d]
}

// The frame of a record, without a check sequence.
fn message_of(item: &[u8]) -> &[u8]
    ensures { result.now ≡ drop 16 item.now }
{
    memory::part(item, pcap::HEAD, item.len())
}

// Puts the event of a record's frame, with its check sequence, from a place on.
fn put_event(item: &[u8], events: &mut [u8], at: usize)
    requires { at + length item.now < 2 ^ 64 }
    ensures { events.new ≡ store events.old at (bytes_of (frame_event (captured_of item.now))) }
{
    if events.len() <= at {
        return;
    }
    let message = message_of(item);
    let n = message.len();
    let check = fcs::check_number(message);
    memory::store(events, at, &head(n + 4));
    memory::store(events, at + 5, message);
    memory::store_word(events, at + 5 + n, check);
}

// Puts the time of a record from a place on.
fn put_time(item: &[u8], times: &mut [u8], at: usize)
    ensures { times.new ≡ store times.old at (time_bytes (captured_of item.now)) }
{
    if times.len() <= at {
        return;
    }
    let seconds = memory::word(item, 0);
    let microseconds = memory::word(item, 4);
    memory::store_word(times, at, seconds);
    memory::store_word(times, at + 4, microseconds);
}

// Puts the events and the times of all records.
pub(crate) fn put_all(records: &[u8], events: &mut [u8], times: &mut [u8])
    ensures { (events.new ≡ store events.old 0 (events_of (frames_of records.now))) × (times.new ≡ store times.old 0 (times_of (frames_of records.now))) }
{
    let mut to = 0;
    let mut time = 0;
    for record in Records::new(records) {
        put_event(record, events, to);
        put_time(record, times, time);
        to += record.len() - 7;
        time += 8;
    }
}
