// Register accesses and the interrupt line.
ghost use Rattle.std.specs.Prelude.{◌≡◌};
ghost use Rattle.enet.specs.Access.{read, write, interrupt_line};

use crate::{Answered, Enet, Value};

impl Enet {
    // A register read, or its refusal by 2.
    #[tactic(auto, unfolding(crate::specs::Access::read))]
    pub fn read(self, offset: u32) -> Value
        ensures { result ≡ read self offset }
    {
        let found = self.registers.read(offset);
        Value {
            number: answer::number_of(&found),
            value: found.unwrap_or(0),
            device: self,
        }
    }

    // A register write, or its refusal by 2 or 15.
    #[tactic(auto, unfolding(crate::specs::Access::write))]
    pub fn write(self, offset: u32, v: u32) -> Answered
        ensures { result ≡ write self offset v }
    {
        let written = register_write::write(self.registers, offset, v);
        let number = answer::number_of(&written);
        let registers = written.unwrap_or(self.registers);
        let ticks = ticking::after_write(number, offset, registers.txtor, self.counters.ticks);
        Answered {
            number,
            device: self.after(registers, self.counters.with_ticks(ticks)),
        }
    }

    // The interrupt line is high.
    pub fn interrupt_line(self) -> bool
        ensures { result ≡ interrupt_line self }
    {
        self.registers.interrupt_line()
    }
}
