// One of the two DMA engines of the device.
#![tactic(auto)]

ghost use Rattle.std.specs.Prelude.{◌≡◌};
ghost use Rattle.engine.specs.Engine.{led_to, engine_reset, stopped, not_granted};

// Its start register, its next-descriptor register, whether it runs, its place in the chain, and whether polling is enabled for
// that place.
#[derive(Clone, Copy)]
pub struct Engine {
    pub start: u32,
    pub next: u32,
    pub running: bool,
    pub place: u32,
    pub polling: bool,
}

impl Engine {
    // DMA enable and start fetch of a start register, bits 0 and 2 (RM0006, chapter 8).
    pub const DMA_EN: u32 = 0x0000_0001;

    pub const START_FETCH: u32 = 0x0000_0004;

    // An engine at reset, by the reset values of its registers.
    pub fn reset(start: u32, next: u32) -> Engine
        ensures { result ≡ engine_reset start next }
    {
        Engine {
            start,
            next,
            running: false,
            place: 0,
            polling: false,
        }
    }

    // Its place is where a word leads, and the word's polling bit holds for it: that of the next-descriptor register at a start,
    // of the descriptor at a move.
    pub fn led_to(mut self, word: u32) -> Engine
        ensures { result ≡ led_to self word }
    {
        self.place = address::place_of(word);
        self.polling = address::polls(word);
        self
    }

    // The engine stops; its registers, its place and the polling bit stay.
    pub fn stopped(mut self) -> Engine
        ensures { result ≡ stopped self }
    {
        self.running = false;
        self
    }

    // Its descriptor is not granted: without polling the engine stops; with polling it looks again.
    #[tactic(auto, unfolding(crate::specs::Engine::not_granted))]
    pub fn not_granted(self) -> Engine
        ensures { result ≡ not_granted self }
    {
        if self.polling { self } else { self.stopped() }
    }
}
