// Text in a buffer that the caller lends. Each function takes where the text so far ends, and answers where it ends then.
// What has no room is not written.
#![tactic(auto)]

ghost use Rattle.std.specs.Prelude.{[], ◌∷◌, ◌≡◌};
ghost use Rattle.text.specs.Text.{written, put as put_into};

// Writes s as it stands.
pub fn put(text: &mut [u8], at: usize, s: &[u8]) -> usize
    ensures { written result text.new ≡ put_into text.old at s.now }
{
    memory::store(text, at, s);
    if text.len() < at {
        return text.len();
    }
    if text.len() - at < s.len() {
        return text.len();
    }
    at + s.len()
}

// Writes one character.
pub fn character(text: &mut [u8], at: usize, c: u8) -> usize
    ensures { written result text.new ≡ put_into text.old at (c ∷ []) }
{
    put(text, at, &[c])
}
