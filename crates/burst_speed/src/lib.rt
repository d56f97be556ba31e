// A burst beside single receives, for C to time (benchmark/). They stand in a library of their own: with more callers of the
// device's receive in one library the compiler builds it in another way, and `speed` would be measured anew.
#![tactic(auto)]

ghost use Rattle.std.specs.Prelude.{◌≡◌};
ghost use Rattle.burst.specs.Burst.{burst_of};
ghost use Rattle.timing.specs.Timing.{bench, window_of, received};
ghost use Rattle.burst_speed.specs.Bursts.{single_receives, gave, of_burst};

// Single receives of one frame, with no grant in between; how many were taken.
#[unsafe(no_mangle)]
pub extern "C" fn speed_singles(memory: &mut [u8], frame: &[u8], rounds: u32) -> u32
    ensures { received result memory.new ≡ single_receives rounds 0 (bench (window_of memory.old)) memory.old frame.now }
{
    let mut device = timing::bench((memory.len() % 0x1_0000_0000) as u32);
    let mut taken = 0;
    let mut left = rounds;
    while 0 < left {
        let one = device.receive(memory, frame);
        device = one.device;
        taken += timing::passed(one.number);
        left -= 1;
    }
    taken
}

// One burst; its number.
#[unsafe(no_mangle)]
pub extern "C" fn speed_burst(
    memory: &mut [u8],
    store: &[u8],
    starts: &[u32],
    lengths: &[u32],
    answers: &mut [u32],
) -> u32
    ensures { gave result memory.new answers.new ≡ of_burst (burst_of (bench (window_of memory.old)) memory.old store.now starts.now lengths.now answers.old) }
{
    let device = timing::bench((memory.len() % 0x1_0000_0000) as u32);
    burst::burst(device, memory, store, starts, lengths, answers).number
}
