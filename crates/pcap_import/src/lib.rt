// A capture imported as frame events, with times beside them (02, Wish 7; docs/CAPTURE.md): first what it says, then the rooms.
#![tactic(auto)]

mod frames;

ghost use Rattle.std.specs.Prelude.{◌≡◌, drop};
ghost use Rattle.answer.specs.Refusals.{number_of};
ghost use Rattle.pcap_import.specs.Import.{header_fault, look, answer_of, importing, import};

use answer::Refusal;

// What a capture gave: how many bytes its events have and how many frames it has.
#[derive(Clone, Copy)]
pub struct Imported {
    pub bytes: usize,
    pub frames: usize,
}

// What is wrong with the header.
fn header_fault(file: &[u8]) -> Result<(), Refusal>
    ensures { number_of result ≡ header_fault file.now }
{
    if file.len() < pcap::HEADER {
        return Err(Refusal::CaptureHeader);
    }
    if memory::word(file, 0) != pcap::MAGIC {
        return Err(Refusal::Magic);
    }
    if memory::word(file, 4) != pcap::VERSION {
        return Err(Refusal::Version);
    }
    if memory::word(file, 20) != pcap::LINK_TYPE {
        return Err(Refusal::LinkType);
    }
    Ok(())
}

// The bytes behind the header.
fn records_of(file: &[u8]) -> &[u8]
    ensures { result.now ≡ drop 24 file.now }
{
    memory::part(file, pcap::HEADER, file.len())
}

// What a capture says to a reader with so many bytes of room for events and for times. An event has seven bytes fewer than its record.
fn look(file: &[u8], events: usize, times: usize) -> Result<Imported, Refusal>
    ensures { answer_of result ≡ look file.now events times }
{
    header_fault(file)?;
    let records = records_of(file);
    let walked = pcap_records::walk(records)?;
    if !walked.storable {
        return Err(Refusal::ImportRoom);
    }
    let bytes = records.len() - 7 * walked.frames;
    if events < bytes {
        return Err(Refusal::ImportRoom);
    }
    if times < 8 * walked.frames {
        return Err(Refusal::ImportRoom);
    }
    Ok(Imported {
        bytes,
        frames: walked.frames,
    })
}

// Imports a capture: its frame events to the front of one room, their times to the front of the other.
pub fn import(file: &[u8], events: &mut [u8], times: &mut [u8]) -> Result<Imported, Refusal>
    ensures { importing (answer_of result) events.new times.new ≡ import file.now events.old times.old }
{
    let imported = look(file, events.len(), times.len())?;
    frames::put_all(records_of(file), events, times);
    Ok(imported)
}
