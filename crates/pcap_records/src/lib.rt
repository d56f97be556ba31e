// The records of a capture, behind its header (02, Wish 7; docs/CAPTURE.md): the one at a place, those that are right one behind the
// other, and a walk along them.
#![tactic(auto)]

ghost use Rattle.std.specs.Prelude.{◌≡◌, drop};
ghost use Rattle.std.specs.Iterator.{YieldsFirstRef, item_count};
ghost use Rattle.answer.specs.Refusals.{number_of};
ghost use Rattle.pieces.specs.Pieces.{pieces, unless_zero};
ghost use Rattle.pcap_records.specs.Records.{record_size, record_fault, records_fault, size_of, fault_of, reached, walked};

use answer::Refusal;

// How many records there are, and whether the frame of each has a length of 32 bits with its check sequence.
#[derive(Clone, Copy)]
pub struct Walked {
    pub frames: usize,
    pub storable: bool,
}

// A record that is wrong: why, and what is before it.
#[derive(Clone, Copy)]
pub struct Wrong {
    pub refusal: Refusal,
    pub before: Walked,
}

impl From<Wrong> for Refusal {
    ghost from_gives = { λ wrong refusal. refusal ≡ wrong.refusal };

    fn from(wrong: Wrong) -> Refusal {
        wrong.refusal
    }
}

// A record of so many bytes or more: with its check sequence its frame has no length of 32 bits.
const LONG: usize = 4_294_967_308;

// How many bytes the record at a place has, if any byte is left; or why it is wrong. Its length is read once: a walk asks this of every
// record.
fn at(records: &[u8], place: usize) -> Result<Option<usize>, Refusal>
    ensures { (size_of result ≡ unless_zero (record_size (drop place records.now))) × (number_of result ≡ record_fault (drop place records.now)) }
{
    if records.len() <= place {
        return Ok(None);
    }
    let left = records.len() - place;
    if left < pcap::HEAD {
        return Err(Refusal::RecordCut);
    }
    let n = memory::word(records, place + 8);
    if left - pcap::HEAD < n as usize {
        return Err(Refusal::RecordCut);
    }
    if n != memory::word(records, place + 12) {
        return Err(Refusal::RecordLengths);
    }
    Ok(Some(pcap::HEAD + n as usize))
}

// How many bytes the record at a place has, where one is that is not cut and has equal lengths.
pub fn size_at(records: &[u8], place: usize) -> Option<usize>
    ensures { result ≡ unless_zero (record_size (drop place records.now)) }
{
    at(records, place).unwrap_or(None)
}

// The records of a capture up to the first that is wrong, one behind the other.
#[derive(Drop)]
pub struct Records<'a> {
    left: &'a [u8],
}

impl<'a> Records<'a> {
    pub fn new(records: &'a [u8]) -> Self
        ensures { result.left.now ≡ records.now }
    {
        Records { left: records }
    }
}

impl<'a> Iterator for Records<'a> {
    type Item = &'a [u8];

    ghost next_gives = { YieldsFirstRef (λ s. pieces record_size s.left.now) };

    ghost remaining = { item_count (λ s. pieces record_size s.left.now) };

    fn next(&mut self) -> Option<&'a [u8]> {
        let n = size_at(self.left, 0)?;
        let (record, left) = self.left.split_at(n);
        self.left = left;
        Some(record)
    }
}

// What the records are, or why the first is wrong that is, and what is before it.
pub fn walk(records: &[u8]) -> Result<Walked, Wrong>
    ensures number { fault_of result ≡ records_fault records.now }
    ensures walked { reached result ≡ walked records.now }
{
    let mut place = 0;
    let mut frames = 0;
    let mut storable = true;
    loop {
        match at(records, place) {
            Ok(Some(n)) => {
                storable &= n < LONG;
                place += n;
                frames += 1;
            }
            Ok(None) => return Ok(Walked { frames, storable }),
            Err(refusal) => {
                return Err(Wrong {
                    refusal,
                    before: Walked { frames, storable },
                });
            }
        }
    }
}
