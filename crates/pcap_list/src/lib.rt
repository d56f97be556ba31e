// Frames, each with its time, as one string of bytes (02, Wish 7; docs/CAPTURE.md): the entry at a place, the entries one behind the
// other, and an entry put behind others.
#![tactic(auto)]

ghost use Rattle.std.specs.Prelude.{◌≡◌, drop};
ghost use Rattle.std.specs.Iterator.{YieldsFirstRef, item_count};
ghost use Rattle.appending.specs.Put.{put};
ghost use Rattle.pieces.specs.Pieces.{pieces, unless_zero};
ghost use Rattle.pcap_list.specs.Entries.{entry_bytes, entry_size, listed};

// The bytes of an entry before its frame: the first of those that a record has.
pub const HEAD: usize = 12;

// How many bytes the entry at a place has, where a whole one is.
pub fn size_at(list: &[u8], place: usize) -> Option<usize>
    ensures { result ≡ unless_zero (entry_size (drop place list.now)) }
{
    let left = list.len().checked_sub(place)?.checked_sub(HEAD)?;
    let n = memory::word(list, place + 8) as usize;
    if left < n { None } else { Some(HEAD + n) }
}

// The whole entries of a list, one behind the other.
#[derive(Drop)]
pub struct Entries<'a> {
    left: &'a [u8],
}

impl<'a> Entries<'a> {
    pub fn new(list: &'a [u8]) -> Self
        ensures { result.left.now ≡ list.now }
    {
        Entries { left: list }
    }
}

impl<'a> Iterator for Entries<'a> {
    type Item = &'a [u8];

    ghost next_gives = { YieldsFirstRef (λ s. pieces entry_size s.left.now) };

    ghost remaining = { item_count (λ s. pieces entry_size s.left.now) };

    fn next(&mut self) -> Option<&'a [u8]> {
        let n = size_at(self.left, 0)?;
        let (entry, left) = self.left.split_at(n);
        self.left = left;
        Some(entry)
    }
}

// How many frames a list of its form has; of another list the error says how many whole entries stand before the rest.
pub fn walk(list: &[u8]) -> Result<usize, usize>
    ensures { result ≡ listed list.now }
{
    let mut place = 0;
    let mut frames = 0;
    for entry in Entries::new(list) {
        place += entry.len();
        frames += 1;
    }
    if place == list.len() {
        Ok(frames)
    } else {
        Err(frames)
    }
}

// Puts a frame with its time behind the first `at` bytes of a list, and answers where its entry ends; where it has no room, the list is
// as it was. Of a time or a length that is longer than four bytes the lowest four are put.
pub fn put(
    list: &mut [u8],
    at: usize,
    seconds: usize,
    microseconds: usize,
    frame: &[u8],
) -> Option<usize>
    ensures end { result ≡ unless_zero (put list.old at (entry_bytes (record { seconds = seconds; microseconds = microseconds; frame = frame.now }))).end }
    ensures after { list.new ≡ (put list.old at (entry_bytes (record { seconds = seconds; microseconds = microseconds; frame = frame.now }))).list }
{
    let head = pcap::head(seconds, microseconds, frame.len());
    let end = appending::put(list, at, &head[..HEAD], frame);
    if end == 0 { None } else { Some(end) }
}
