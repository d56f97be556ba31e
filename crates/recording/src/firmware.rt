// What the firmware wrote into the window before the first event: the memory image.
ghost use Rattle.std.specs.Prelude.{◌≡◌, ◌≤◌, length};
ghost use Rattle.forms.specs.Pairs.{named};
ghost use Rattle.recording.specs.Bytes.{poked, may_poke, poke};

use crate::Day;
use forms::pairs;
use window::Window;

// Room for the bytes that a line names.
pub(crate) fn blank() -> [u8; 2048]
    ensures { 2048 ≡ length result }
{
    [0; 2048]
}

// The window of the day.
fn window_of(day: Day) -> Window
    ensures { result ≡ record { base = day.base; length = day.window } }
{
    Window {
        base: day.base,
        length: day.window,
    }
}

// Whether the firmware may write n bytes from an address on.
fn may_poke(day: Day, address: u32, n: u32) -> bool
    ensures { result ≡ may_poke day address n }
{
    day.events == 0 && window_of(day).holds(address, n)
}

// Writes them.
#[tactic(auto, unfolding(crate::specs::Bytes::poke))]
fn stored(day: Day, address: u32, s: &[u8], image: &mut [u8]) -> Day
    requires { length s.now ≤ 2048 }
    ensures { poked result image.new ≡ poke day image.old address s.now }
{
    if !may_poke(day, address, s.len() as u32) {
        return crate::failed(day);
    }
    let window = window_of(day);
    let from = window.offset(address);
    memory::store(image, from, s);
    day
}

// Writes the bytes that a word names.
pub(crate) fn poke(day: Day, address: u32, word: &[u8], image: &mut [u8]) -> Day
    ensures { poked result image.new ≡ poke day image.old address (named word.now) }
{
    let mut bytes = blank();
    let n = pairs::decode(word, &mut bytes);
    stored(day, address, memory::part(&bytes, 0, n), image)
}
