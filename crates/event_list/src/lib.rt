// Events put into a list, one behind the other, as their bytes (02, Wish 4; docs/TRACE.md). Each function puts an event behind
// the first `at` bytes of a list and answers where its bytes end. Where they have no room the answer is 0, which no event ends
// at, and the list is as it was.
#![tactic(auto)]

ghost use Rattle.std.specs.Prelude.{◌≡◌, ◌∷◌, ◌++◌};
ghost use Rattle.memory.specs.Memory.{word_bytes};
ghost use Rattle.event.specs.Event.{register_write, grant as a_grant, frame as a_frame, send as a_send, bytes_of};
ghost use Rattle.appending.specs.Put.{put_of, put};

// The bytes of a register write.
fn write_bytes(offset: u32, value: u32) -> [u8; 9]
    ensures { result ≡ bytes_of (register_write offset value) }
{
    let [a, b, c, d] = offset.to_le_bytes();
    let [e, f, g, h] = value.to_le_bytes();
    [1, a, b, c, d, e, f, g, h]
}

// A first byte, and a number in four.
fn numbered(first: u8, n: usize) -> [u8; 5]
    ensures { result ≡ first ∷ word_bytes n }
{
    let [a, b, c, d, ..] = n.to_le_bytes();
    [first, a, b, c, d]
}

pub fn write(list: &mut [u8], at: usize, offset: u32, value: u32) -> usize
    ensures { put_of result list.new ≡ put list.old at (bytes_of (register_write offset value)) }
{
    let event = write_bytes(offset, value);
    appending::put(list, at, &event, b"")
}

pub fn grant(list: &mut [u8], at: usize, address: u32) -> usize
    ensures { put_of result list.new ≡ put list.old at (bytes_of (a_grant address)) }
{
    let event = numbered(2, address as usize);
    appending::put(list, at, &event, b"")
}

pub fn frame(list: &mut [u8], at: usize, s: &[u8]) -> usize
    ensures { put_of result list.new ≡ put list.old at (bytes_of (a_frame s.now)) }
{
    let head = numbered(3, s.len());
    appending::put(list, at, &head, s)
}

pub fn send(list: &mut [u8], at: usize) -> usize
    ensures { put_of result list.new ≡ put list.old at (bytes_of a_send) }
{
    appending::put(list, at, &[4], b"")
}
