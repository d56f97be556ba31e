// The tick of the send time-out.
ghost use Rattle.std.specs.Prelude.{◌≡◌};
ghost use Rattle.enet.specs.Tick.{tick};

use crate::{Answered, Enet};

impl Enet {
    // A tick, or its refusal by 11.
    #[tactic(auto, unfolding(crate::specs::Tick::tick))]
    pub fn tick(self, memory: &[u8]) -> Answered
        ensures { result ≡ tick self memory.now }
    {
        let counters = self.counters;
        let t = ticking::tick(self.whole_window(), self.registers, counters.ticks, memory);
        Answered {
            number: t.number,
            device: self.after(t.registers, counters.with_ticks(t.count)),
        }
    }
}
