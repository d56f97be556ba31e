// The events of a replayed day, each with its line, written as they come (docs/TRACE.md, "replay"). Proved is that a day that is shown is
// the day that is played.
#![tactic(auto)]

ghost use Rattle.std.specs.Prelude.{◌≡◌, drop};
ghost use Rattle.event.specs.Front.{front, found};
ghost use Rattle.showing.specs.Showing.{left, next, shown, shown_over};

use day_lines::Day;

// The event at a place, and its line.
fn event<P: Print>(
    rt: &P,
    day: Day,
    events: &[u8],
    place: usize,
    memory: &mut [u8],
    output: &mut [u8],
    text: &mut [u8],
) -> Day
    ensures { left result memory.new output.new ≡ next (left day memory.old output.old) events.now (found place (front (drop place events.now))) }
{
    let found = event::at(events, place);
    let acted = playback::act(day.device, memory, output, events, found);
    let waiting = day_lines::write_past(rt, day_lines::MOST, text, day.waiting);
    let sent = memory::part(output, 0, acted.count);
    let end = day_reports::event(text, waiting, found, acted.number, sent);
    Day {
        device: acted.device,
        waiting: end,
    }
}

// All events of a list, one behind the other.
fn all<P: Print>(
    rt: &P,
    begun: Day,
    events: &[u8],
    memory: &mut [u8],
    output: &mut [u8],
    text: &mut [u8],
) -> Day
    ensures { left result memory.new output.new ≡ shown (left begun memory.old output.old) events.now }
{
    let mut day = begun;
    let mut place = 0;
    let mut n = event::size_at(events, 0);
    while n != 0 {
        day = event(rt, day, events, place, memory, output, text);
        place += n;
        n = event::size_at(events, place);
    }
    day
}

// All events of a list, over the first bytes of the memory.
pub fn all_lent<P: Print>(
    rt: &P,
    begun: Day,
    events: &[u8],
    memory: &mut [u8],
    lent: usize,
    output: &mut [u8],
    text: &mut [u8],
) -> Day
    ensures { left result memory.new output.new ≡ shown_over begun memory.old lent output.old events.now }
{
    let k = commands::within(lent, memory.len());
    all(rt, begun, events, &mut memory[..k], output, text)
}
