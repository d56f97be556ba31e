// Calls over lent memory that change it: grant, receive, single send.
ghost use Rattle.std.specs.Prelude.{◌≡◌};
ghost use Rattle.enet.specs.Device.{outcome};
ghost use Rattle.enet.specs.Frames.{grant, receive};
ghost use Rattle.enet.specs.Send.{sending, send};

use crate::{Answered, Enet, Sent};

impl Enet {
    // A grant, or the refusals 11, 13 and 14.
    #[tactic(auto, unfolding(crate::specs::Frames::grant))]
    pub fn grant(self, memory: &mut [u8], address: u32) -> Answered
        ensures { outcome result memory.new ≡ grant self memory.old address }
    {
        let granted = granting::grant(self.whole_window(), memory, address);
        Answered {
            number: answer::number_of(&granted),
            device: self,
        }
    }

    // A frame in: delivered, or refused by 11, 3, 4, 5, 6, 7 or 8.
    #[tactic(auto, unfolding(crate::specs::Frames::receive))]
    pub fn receive(self, memory: &mut [u8], frame: &[u8]) -> Answered
        ensures { outcome result memory.new ≡ receive self memory.old frame.now }
    {
        let change = receiving::receive(self.whole_window(), self.registers, memory, frame);
        let counters = self.counters;
        Answered {
            number: change.number,
            device: self.after(change.registers, counters.after_receive(change.number)),
        }
    }

    // A single send, or its refusal by 11, 9, 3, 7, 8 or 12.
    #[tactic(auto, unfolding(crate::specs::Send::send))]
    pub fn send(self, memory: &mut [u8], output: &mut [u8]) -> Sent
        ensures { sending result memory.new output.new ≡ send self memory.old output.old }
    {
        let sent = sending::send(self.whole_window(), self.registers, memory, output);
        let counters = self.counters;
        Sent {
            number: sent.number,
            count: sent.count,
            device: self.after(sent.registers, counters.after_send(sent.number)),
        }
    }
}
