// The step run.
ghost use Rattle.std.specs.Prelude.{◌≡◌, ◌+◌, ◌^◌, ◌<◌};
ghost use Rattle.enet.specs.Run.{running, behind, sends, run};

use crate::{Enet, Ran};

impl Ran {
    // The run with one more step before it, which put n bytes.
    fn behind(mut self, n: usize) -> Ran
        requires { (self.steps + 1 < 2 ^ 32) × (n + self.count < 2 ^ 64) }
        ensures { result ≡ behind n self }
    {
        self.steps = self.steps + 1;
        self.count = n + self.count;
        self
    }
}

impl Enet {
    // Single sends into what the last one left of the output, until one does not send or none is left to make.
    #[tactic(auto, unfolding(crate::specs::Run::sends))]
    fn sends(self, memory: &mut [u8], output: &mut [u8], left: u32) -> Ran
        ensures { running result memory.new output.new ≡ sends left self memory.old output.old }
    {
        if left == 0 {
            return Ran {
                number: answer::DONE,
                steps: 0,
                count: 0,
                device: self,
            };
        }
        let s = self.send(memory, output);
        let next = s.device;
        if s.number != answer::DONE {
            return Ran {
                number: s.number,
                steps: 1,
                count: 0,
                device: next,
            };
        }
        let n = s.count;
        next.sends(memory, &mut output[n..], left - 1).behind(n)
    }

    // The step run: at most `allowance` single sends, or the refusal 10.
    #[tactic(auto, unfolding(crate::specs::Run::run))]
    pub fn run(self, memory: &mut [u8], output: &mut [u8], allowance: u32) -> Ran
        ensures { running result memory.new output.new ≡ run self memory.old output.old allowance }
    {
        if 4096 < allowance {
            return Ran {
                number: answer::ALLOWANCE,
                steps: 0,
                count: 0,
                device: self,
            };
        }
        self.sends(memory, output, allowance)
    }
}
