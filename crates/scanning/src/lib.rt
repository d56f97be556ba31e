// A byte looked for in a run of bytes.
#![tactic(auto)]

ghost use Rattle.std.specs.Prelude.{◌≡◌, ◌<◌, length, unwrap_or, IfSome};
ghost use Rattle.scanning.specs.Scanning.{index_of};

// The index of the first byte that is b, if there is one.
pub fn find(s: &[u8], b: u8) -> Option<usize>
    ensures index { unwrap_or result (length s.now) ≡ index_of b s.now }
    ensures within { IfSome result (λ i. i < length s.now) }
{
    s.iter().position(|x| *x == b)
}
