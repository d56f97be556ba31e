// The counters of the device (02, Wish 9): frames delivered, lost and sent, and the count of its ticks.
#![tactic(auto)]

ghost use Rattle.std.specs.Prelude.{◌≡◌};
ghost use Rattle.counters.specs.Counters.{reset, with_ticks, one_more, after_receive, after_send};

// Frames delivered, lost and sent, and the ticks in a row at which a send was stalled.
#[derive(Clone, Copy)]
pub struct Counters {
    pub delivered: u32,
    pub lost: u32,
    pub sent: u32,
    pub ticks: u32,
}

// One event more; a counter that has reached the stop stays there.
#[tactic(auto, unfolding(crate::specs::Counters::one_more))]
fn one_more(n: u32) -> u32
    ensures { result ≡ one_more n }
{
    n.saturating_add(1).min(Counters::STOP)
}

impl Counters {
    // Where the counters of frames stop: one that has reached it stays there.
    pub const STOP: u32 = u32::MAX;

    // All four at 0.
    pub fn reset() -> Counters
        ensures { result ≡ reset }
    {
        Counters {
            delivered: 0,
            lost: 0,
            sent: 0,
            ticks: 0,
        }
    }

    // Another count of ticks.
    pub fn with_ticks(mut self, n: u32) -> Counters
        ensures { result ≡ with_ticks self n }
    {
        self.ticks = n;
        self
    }

    // After a receive, by its number.
    pub fn after_receive(mut self, number: u32) -> Counters
        ensures { result ≡ after_receive number self }
    {
        match number {
            answer::DONE => self.delivered = one_more(self.delivered),
            answer::NOT_GRANTED => self.lost = one_more(self.lost),
            _ => {}
        }
        self
    }

    // After a single send, by its number.
    pub fn after_send(mut self, number: u32) -> Counters
        ensures { result ≡ after_send number self }
    {
        if number == answer::DONE {
            self.sent = one_more(self.sent);
            self.ticks = 0;
        }
        self
    }
}
