// Frames with their times exported as a capture (02, Wish 7; docs/CAPTURE.md): first the number, then the file. The entry of a
// frame that is right and its record have as many bytes, so each record lies a header's length behind where its entry lies in the list.
#![tactic(auto)]

ghost use Rattle.std.specs.Prelude.{◌+◌, ◌≤◌, ◌≡◌, length, IfOk};
ghost use Rattle.answer.specs.Refusals.{number_of};
ghost use Rattle.memory.specs.Memory.{store};
ghost use Rattle.pcap.specs.Capture.{record_bytes, records_bytes};
ghost use Rattle.pcap_list.specs.Entries.{entry_of, entries_of};
ghost use Rattle.pcap_export.specs.Export.{frame_fault, first_wrong, export_number, answer_of, exporting, export};
ghost use Rattle.pcap_export.specs.Places.{NoneWrong};

use answer::Refusal;
use pcap_list::Entries;

// A capture that was made: how many bytes it has and how many frames.
#[derive(Clone, Copy)]
pub struct Exported {
    pub bytes: usize,
    pub frames: usize,
}

// The first of the refusals 4 and 5 that a frame meets.
fn fault(frame: &[u8]) -> Result<(), Refusal>
    ensures { number_of result ≡ frame_fault frame.now }
{
    if !frame::length_allowed(frame.len()) {
        return Err(Refusal::FrameLength);
    }
    if !fcs::check_right(frame) {
        return Err(Refusal::FrameCheck);
    }
    Ok(())
}

// The frame of an entry.
fn frame_of(entry: &[u8]) -> &[u8]
    ensures { result.now ≡ (entry_of entry.now).frame }
{
    memory::part(entry, pcap_list::HEAD, entry.len())
}

// Why the first frame is wrong that is.
fn first_wrong(list: &[u8]) -> Result<(), Refusal>
    ensures { number_of result ≡ first_wrong (entries_of list.now) }
{
    for entry in Entries::new(list) {
        fault(frame_of(entry))?;
    }
    Ok(())
}

// How many frames the capture will have, or the first refusal that holds, in the order in which they are named.
fn look(list: &[u8], room: usize) -> Result<usize, Refusal>
    ensures number { number_of result ≡ export_number list.now room }
    ensures frames { IfOk result (λ frames. frames ≡ length (entries_of list.now)) }
{
    let frames = match pcap_list::walk(list) {
        Ok(frames) => frames,
        Err(_) => return Err(Refusal::FrameList),
    };
    first_wrong(list)?;
    if room < pcap::HEADER {
        return Err(Refusal::CaptureRoom);
    }
    if room - pcap::HEADER < list.len() {
        return Err(Refusal::CaptureRoom);
    }
    Ok(frames)
}

// Puts the record of an entry into the room from a place on.
fn put_entry(entry: &[u8], room: &mut [u8], at: usize)
    ensures { room.new ≡ store room.old at (record_bytes (entry_of entry.now)) }
{
    let seconds = memory::word(entry, 0);
    let microseconds = memory::word(entry, 4);
    let frame = frame_of(entry);
    pcap::put_record(room, at, seconds, microseconds, frame);
}

// Puts the records of all entries behind the header.
fn put_all(list: &[u8], room: &mut [u8])
    requires { NoneWrong list.now × (24 + length list.now ≤ length room.old) }
    ensures { room.new ≡ store room.old 24 (records_bytes (entries_of list.now)) }
{
    let mut at = pcap::HEADER;
    for entry in Entries::new(list) {
        put_entry(entry, room, at);
        at += entry.len();
    }
}

// Exports the frames of a list as a capture at the front of the room.
pub fn export(list: &[u8], room: &mut [u8]) -> Result<Exported, Refusal>
    ensures { exporting (answer_of result) room.new ≡ export list.now room.old }
{
    let frames = look(list, room.len())?;
    pcap::put_header(room);
    put_all(list, room);
    Ok(Exported {
        bytes: pcap::HEADER + list.len(),
        frames,
    })
}
