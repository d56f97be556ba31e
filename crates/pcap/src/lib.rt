// A capture: a classic pcap file (02, Wish 7; docs/CAPTURE.md). Its header, and one of its records, put into a room. A room that is too
// short has as much of them as it has room for.
#![tactic(auto)]

ghost use Rattle.std.specs.Prelude.{◌≡◌};
ghost use Rattle.memory.specs.Memory.{word_bytes, store};
ghost use Rattle.pcap.specs.Capture.{header_bytes, message, head_bytes, record_bytes};

// The bytes of the header.
pub const HEADER: usize = 24;

// The bytes of a record before its frame.
pub const HEAD: usize = 16;

// What the header of a file that is read has to hold: its magic,
pub const MAGIC: u32 = 0xa1b2_c3d4;

// its version, the major one in the lower two bytes, the minor one in the upper two,
pub const VERSION: u32 = 0x0004_0002;

// and its link type, Ethernet.
pub const LINK_TYPE: u32 = 1;

// The header of a file that is made.
#[tactic(auto, unfolding(crate::specs::Capture::header_bytes, memory::specs::Memory::word_bytes))]
fn header() -> [u8; HEADER]
    ensures { result ≡ header_bytes }
{
    [
        0xd4, 0xc3, 0xb2, 0xa1, 2, 0, 4, 0, 0, 0, 0, 0, 0, 0, 0, 0, 0xff, 0xff, 0, 0, 1, 0, 0, 0,
    ]
}

// Puts it at the front of a room.
#[tactic(auto, using(crate::proofs::Laws::header_put))]
pub fn put_header(room: &mut [u8])
    ensures { room.new ≡ store room.old 0 header_bytes }
{
    memory::store(room, 0, &header());
}

// A frame without its check sequence.
#[tactic(auto, unfolding(crate::specs::Capture::message))]
fn message(frame: &[u8]) -> &[u8]
    ensures { result.now ≡ message frame.now }
{
    &frame[..frame.len().saturating_sub(4)]
}

// The lowest four bytes of a number, the lowest first.
#[tactic(auto, using(crate::proofs::Laws::low_four))]
pub fn low_bytes(n: usize) -> [u8; 4]
    ensures { result ≡ word_bytes n }
{
    let [a, b, c, d, ..] = n.to_le_bytes();
    [a, b, c, d]
}

// The bytes before the frame of a record of n bytes: its time, and n as the captured length and as the original one. Of a number that is
// longer than four bytes the lowest four count.
#[tactic(auto, unfolding(crate::specs::Capture::head_bytes, memory::specs::Memory::word_bytes))]
pub fn head(seconds: usize, microseconds: usize, n: usize) -> [u8; HEAD]
    ensures { result ≡ head_bytes seconds microseconds n n }
{
    let [s0, s1, s2, s3] = low_bytes(seconds);
    let [m0, m1, m2, m3] = low_bytes(microseconds);
    let [n0, n1, n2, n3] = low_bytes(n);
    [
        s0, s1, s2, s3, m0, m1, m2, m3, n0, n1, n2, n3, n0, n1, n2, n3,
    ]
}

// Puts the record of a frame into a room from a place on. Of a length that is longer than four bytes the lowest four are put.
#[tactic(auto, using(memory::proofs::Laws::store_out, crate::proofs::Laws::record_put))]
pub fn put_record(room: &mut [u8], at: usize, seconds: u32, microseconds: u32, frame: &[u8])
    ensures { room.new ≡ store room.old at (record_bytes (record { seconds = seconds; microseconds = microseconds; frame = frame.now })) }
{
    if room.len() <= at {
        return;
    }
    let message = message(frame);
    let head = head(seconds as usize, microseconds as usize, message.len());
    memory::store(room, at, &head);
    memory::store(room, at + HEAD, message);
}
