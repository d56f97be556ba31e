// The two registers of an engine written: the start write, and the next-descriptor write.
#![tactic(auto)]

ghost use Rattle.std.specs.Prelude.{◌≡◌};
ghost use Rattle.engine_write.specs.EngineWrite.{start_written, next_written};

use engine::Engine;

// A start write.
#[tactic(auto, unfolding(crate::specs::EngineWrite::start_written))]
pub fn start_written(mut e: Engine, v: u32) -> Engine
    ensures { result ≡ start_written e v }
{
    e.start = v;
    if v / Engine::DMA_EN % 2 != 1 {
        return e.stopped();
    }
    if e.running {
        return e;
    }
    if v / Engine::START_FETCH % 2 == 1 {
        e = e.led_to(e.next);
        e.running = true;
    }
    e
}

// A next-descriptor write.
pub fn next_written(mut e: Engine, v: u32) -> Engine
    ensures { result ≡ next_written e v }
{
    e.next = v;
    e
}
