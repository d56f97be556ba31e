// Export and import of a capture for programs in other languages, to try and to time them (oracle/, benchmark/). Each puts its answer, as
// a list of numbers, at the front of `found`.
#![tactic(auto)]

ghost use Rattle.std.specs.Prelude.{◌≡◌};
ghost use Rattle.memory.specs.Memory.{store};
ghost use Rattle.pcap_export.specs.Export.{export};
ghost use Rattle.pcap_import.specs.Import.{import};
ghost use Rattle.pcap_trial.specs.Numbers.{exported_numbers, imported_numbers, exported_answer, imported_answer};

use answer::Refusal;
use pcap_export::Exported;
use pcap_import::Imported;

fn exported_numbers(answer: Result<Exported, Refusal>) -> [u64; 3]
    ensures { result ≡ exported_answer answer }
{
    match answer {
        Ok(e) => [0, e.bytes as u64, e.frames as u64],
        Err(refusal) => [u32::from(refusal) as u64, 0, 0],
    }
}

fn imported_numbers(answer: Result<Imported, Refusal>) -> [u64; 3]
    ensures { result ≡ imported_answer answer }
{
    match answer {
        Ok(i) => [0, i.bytes as u64, i.frames as u64],
        Err(refusal) => [u32::from(refusal) as u64, 0, 0],
    }
}

// Exports a list of frames into a room.
#[unsafe(no_mangle)]
pub extern "C" fn pcap_trial_export(list: &[u8], room: &mut [u8], found: &mut [u64])
    ensures { (room.new ≡ (export list.now room.old).room) × (found.new ≡ store found.old 0 (exported_numbers (export list.now room.old).exported)) }
{
    let numbers = exported_numbers(pcap_export::export(list, room));
    number_list::put(found, &numbers);
}

// Imports a capture into rooms for events and times.
#[unsafe(no_mangle)]
pub extern "C" fn pcap_trial_import(
    file: &[u8],
    events: &mut [u8],
    times: &mut [u8],
    found: &mut [u64],
)
    ensures { (events.new ≡ (import file.now events.old times.old).events) × ((times.new ≡ (import file.now events.old times.old).times) × (found.new ≡ store found.old 0 (imported_numbers (import file.now events.old times.old).imported))) }
{
    let numbers = imported_numbers(pcap_import::import(file, events, times));
    number_list::put(found, &numbers);
}
