// The events of a day, each behind those before it.
ghost use Rattle.std.specs.Prelude.{◌≡◌};
ghost use Rattle.event.specs.Event.{register_write, grant as a_grant, frame as a_frame, bytes_of};
ghost use Rattle.forms.specs.Pairs.{named};
ghost use Rattle.recording.specs.Bytes.{listed, place, happened, append, send_into};

use crate::Day;
use crate::firmware::blank;
use forms::pairs;

// Where the next event goes, in a list of so many bytes.
fn place(day: Day, room: usize) -> usize
    ensures { result ≡ place day room }
{
    if day.full {
        return room;
    }
    day.bytes
}

// An event whose bytes end there; 0 where they had no room.
fn happened(mut day: Day, end: usize) -> Day
    ensures { result ≡ happened day end }
{
    day.events = crate::more(day.events);
    if end == 0 {
        day.full = true;
        return day;
    }
    day.bytes = end;
    day
}

pub(crate) fn write(day: Day, offset: u32, value: u32, list: &mut [u8]) -> Day
    ensures { listed result list.new ≡ append day list.old (bytes_of (register_write offset value)) }
{
    let at = place(day, list.len());
    happened(day, event_list::write(list, at, offset, value))
}

pub(crate) fn grant(day: Day, address: u32, list: &mut [u8]) -> Day
    ensures { listed result list.new ≡ append day list.old (bytes_of (a_grant address)) }
{
    let at = place(day, list.len());
    happened(day, event_list::grant(list, at, address))
}

// A frame of the bytes that a word names.
pub(crate) fn frame(day: Day, word: &[u8], list: &mut [u8]) -> Day
    ensures { listed result list.new ≡ append day list.old (bytes_of (a_frame (named word.now))) }
{
    let mut bytes = blank();
    let n = pairs::decode(word, &mut bytes);
    let at = place(day, list.len());
    happened(day, event_list::frame(list, at, memory::part(&bytes, 0, n)))
}

// A single send, if its room is enough for any frame.
pub(crate) fn send(day: Day, room: u32, list: &mut [u8]) -> Day
    ensures { listed result list.new ≡ send_into day list.old room }
{
    if room < 1518 {
        return crate::failed(day);
    }
    let at = place(day, list.len());
    happened(day, event_list::send(list, at))
}
