// The bytes of a frame out: padding and check sequence, put at the front of an output.
#![tactic(auto)]

ghost use Rattle.std.specs.Prelude.{◌≡◌, ◌-◌, replicate};
ghost use Rattle.memory.specs.Memory.{store};
ghost use Rattle.wire.specs.Wire.{send_length_wrong, wire_fits, wire_put, wire_count};

// Under 14 or over 1,514.
#[tactic(auto, unfolding(crate::specs::Wire::send_length_wrong))]
pub fn send_length_wrong(n: u32) -> bool
    ensures { result ≡ send_length_wrong n }
{
    n < 14 || 1514 < n
}

// The payload may be put into the output.
#[tactic(auto, unfolding(crate::specs::Wire::wire_fits))]
fn wire_fits(out: &[u8], payload: &[u8]) -> bool
    ensures { result ≡ wire_fits out.now payload.now }
{
    payload.len() <= 1514 && 1518 <= out.len()
}

// Zeros behind the first n bytes, up to 60. `fill` would be a call of `memset`, as would be a loop of zeros.
fn pad(out: &mut [u8], n: usize)
    ensures { out.new ≡ store out.old n (replicate (60 - n) 0) }
{
    if n < 60 {
        let zeros = [0; 60];
        memory::store(out, n, &zeros[..60 - n]);
    }
}

// Puts the payload, its padding and the check sequence at the front of the output. Answers how many
// bytes that is; where the payload is too long or the output too short nothing is written, and the
// answer is 0.
pub fn put_wire(out: &mut [u8], payload: &[u8]) -> usize
    ensures { (result ≡ wire_count out.old payload.now) × (out.new ≡ wire_put out.old payload.now) }
{
    if !wire_fits(out, payload) {
        return 0;
    }
    let n = payload.len();
    let k = n.max(60);
    memory::store(out, 0, payload);
    pad(out, n);
    fcs::close(out, k);
    k + 4
}
