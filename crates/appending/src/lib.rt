// Bytes put into a list behind its first `at` ones, in two pieces one behind the other. The answer is where they end. Where they have no
// room it is 0, and the list is as it was; so is the answer for no bytes at the front.
#![tactic(auto)]

ghost use Rattle.std.specs.Prelude.{◌≡◌, ◌++◌};
ghost use Rattle.appending.specs.Put.{put_of, put};

pub fn put(list: &mut [u8], at: usize, head: &[u8], body: &[u8]) -> usize
    ensures { put_of result list.new ≡ put list.old at (head.now ++ body.now) }
{
    if list.len() < at {
        return 0;
    }
    let left = list.len() - at;
    if left < head.len() {
        return 0;
    }
    if left - head.len() < body.len() {
        return 0;
    }
    let middle = at + head.len();
    memory::store(list, at, head);
    memory::store(list, middle, body);
    middle + body.len()
}
