// Numbers put at the front of a list, as many as there is room for: so functions for programs in other languages answer.
#![tactic(auto)]

ghost use Rattle.std.specs.Prelude.{◌≡◌};
ghost use Rattle.memory.specs.Memory.{store};

pub fn put(list: &mut [u64], numbers: &[u64])
    ensures { list.new ≡ store list.old 0 numbers.now }
{
    let n = numbers.len().min(list.len());
    for i in 0..n {
        list[i] = numbers[i];
    }
}
