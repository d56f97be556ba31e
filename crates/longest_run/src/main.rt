// The longest step run that there can be: 4,096 granted descriptors fill a window of 65,536 bytes, each sends 14 bytes of
// the next one, and one run sends them all. The proofs do not speak of the stack: this run shows that the step run's
// recursion has room at its greatest depth.
#![tactic(auto)]

use enet::Enet;
use registers::Registers;

// Descriptor k: 14 bytes, next-enable, granted. Its buffer and its next descriptor are the one behind it.
fn put_descriptor(m: &mut [u8], k: u32) {
    let at = (k % 4096) * 16;
    let next = (k % 4096 + 1) % 4096 * 16;
    memory::store_word(m, at as usize, 0x0000_400e);
    memory::store_word(m, at as usize + 4, next);
    memory::store_word(m, at as usize + 8, next);
    memory::store_word(m, at as usize + 12, packet_status::VALID);
}

fn put_descriptors(m: &mut [u8]) {
    for k in 0..4096u32 {
        put_descriptor(m, k);
    }
}

// A new bench whose sending runs from descriptor 0.
fn sender() -> Enet {
    let made = Enet::new(0, 65536);
    let bench = made.device;
    let started = bench.write(Registers::TXSTR, 5);
    started.device
}

fn main(rt: HostRuntime) {
    let mut memory = [0u8; 65536];
    let mut output = [0u8; 263662];
    put_descriptors(&mut memory);
    let ran = sender().run(&mut memory, &mut output, 4096);
    let answer = ran.number;
    let steps = ran.steps;
    let bytes = ran.count;
    let _ = println!(rt; "answer {answer}");
    let _ = println!(rt; "steps {steps}");
    let _ = println!(rt; "bytes {bytes}");
}
