// The events of a recorded day, as bytes (02, Wish 4; docs/TRACE.md): one event at a place of an event list, its size, and a walk
// along the list.
#![tactic(auto)]

ghost use Rattle.std.specs.Prelude.{◌≡◌, drop};
ghost use Rattle.event.specs.Front.{front, found};
ghost use Rattle.event.specs.Sizes.{begins, within, size_by, size_of, none_by};
ghost use Rattle.event.specs.Walk.{ending_by, walk, counted};

// What stands at a place of an event list. A frame is told by where its bytes lie in the list, and how many they are; `Cut` is
// an event of which bytes are missing, `NoEvent` a byte that no event can have there.
#[derive(Clone, Copy)]
pub enum Found {
    RegisterWrite(u32, u32),
    Grant(u32),
    Frame(usize, usize),
    Send,
    Cut,
    NoEvent,
}

// What is behind the last whole event of a list: nothing, an event of which bytes are missing, or a byte that no event can
// have there.
#[derive(Clone, Copy)]
pub enum Ending {
    Whole,
    Cut,
    NoEvent,
}

// The bytes of the whole events of a list, how many events they are, and what is behind them.
#[derive(Clone, Copy)]
pub struct Walked {
    pub place: usize,
    pub events: usize,
    pub ending: Ending,
}

// A byte that an event can begin with.
#[tactic(auto, unfolding(crate::specs::Sizes::begins))]
fn begins(first: u8) -> bool
    ensures { result ≡ begins first }
{
    first != 0 && first <= 4
}

// What is behind the last whole event: so many bytes, and the first of them.
pub fn ends(first: u8, left: usize) -> Ending
    ensures { result ≡ ending_by first left }
{
    if left == 0 {
        Ending::Whole
    } else if begins(first) {
        Ending::Cut
    } else {
        Ending::NoEvent
    }
}

// So many bytes, if they are left.
fn within(left: usize, n: usize) -> usize
    ensures { result ≡ within left n }
{
    if left < n { 0 } else { n }
}

// The size of an event by its first byte, the four bytes behind it as a number, and the bytes left from its first on; 0 where
// it is not whole or there is none.
pub fn size(first: u8, four: u32, left: usize) -> usize
    ensures { result ≡ size_by first four left }
{
    if left == 0 {
        return 0;
    }
    match first {
        1 => within(left, 9),
        2 => within(left, 5),
        3 => {
            if left < 5 {
                0
            } else {
                within(left, 5 + four as usize)
            }
        }
        4 => 1,
        _ => 0,
    }
}

// The size of the event at a place of a list, 0 where there is none.
pub fn size_at(list: &[u8], place: usize) -> usize
    ensures { result ≡ size_of (front (drop place list.now)) }
{
    if list.len() <= place {
        return 0;
    }
    let first = memory::byte(list, place);
    if first == 3 {
        return size(first, memory::word(list, place + 1), list.len() - place);
    }
    size(first, 0, list.len() - place)
}

// The events of a list, one behind the other.
pub fn walk(list: &[u8]) -> Walked
    ensures { result ≡ counted (walk list.now) }
{
    let mut place = 0;
    let mut events = 0;
    let mut n = size_at(list, 0);
    while n != 0 {
        place += n;
        events += 1;
        n = size_at(list, place);
    }
    Walked {
        place,
        events,
        ending: ends(memory::byte(list, place), list.len() - place),
    }
}

// What stands there by its first byte where there is no whole event.
fn none(first: u8) -> Found
    ensures { result ≡ none_by first }
{
    if begins(first) {
        Found::Cut
    } else {
        Found::NoEvent
    }
}

// What stands at a place of a list.
pub fn at(list: &[u8], place: usize) -> Found
    ensures { result ≡ found place (front (drop place list.now)) }
{
    if list.len() <= place {
        return Found::Cut;
    }
    let first = memory::byte(list, place);
    let four = memory::word(list, place + 1);
    let n = size(first, four, list.len() - place);
    if n == 0 {
        return none(first);
    }
    match first {
        1 => Found::RegisterWrite(four, memory::word(list, place + 5)),
        2 => Found::Grant(four),
        3 => Found::Frame(place + 5, four as usize),
        _ => Found::Send,
    }
}
