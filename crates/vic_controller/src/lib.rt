// One of the two interrupt controllers by itself (RM0006, chapter 4): what it holds, the constants of its registers, reset, and its
// status words. Not modelled: the modes of the CPU, which the protection bit is for.
#![tactic(auto)]

ghost use Rattle.std.specs.Prelude.{◌≡◌, get_or};
ghost use Rattle.vic_controller.specs.Controller.{reset, enabled_status, irq_status, fiq_status};

// Software interrupts, enable and selection with a bit for each input, protection, the default vector, and the vector addresses
// and vector controls of the sixteen slots.
#[derive(Clone, Copy)]
pub struct Controller {
    pub software: u16,
    pub enable: u16,
    pub selection: u16,
    pub protection: bool,
    pub default: u32,
    pub addresses: [u32; 16],
    pub controls: [u8; 16],
}

impl Controller {
    // Offsets (RM0006, chapter 4): those of vector addresses and controls of slot 0, each slot 4 further.
    pub const ISR: u32 = 0x000;

    pub const FSR: u32 = 0x004;

    pub const RINTSR: u32 = 0x008;

    pub const INTSR: u32 = 0x00c;

    pub const INTER: u32 = 0x010;

    pub const INTECR: u32 = 0x014;

    pub const SWINTR: u32 = 0x018;

    pub const SWINTCR: u32 = 0x01c;

    pub const PER: u32 = 0x020;

    pub const VAR: u32 = 0x030;

    pub const DVAR: u32 = 0x034;

    pub const VA0R: u32 = 0x100;

    pub const VC0R: u32 = 0x200;

    // Reset values of what is stored.
    pub const INTSR_RESET: u16 = 0x0000;

    pub const INTER_RESET: u16 = 0x0000;

    pub const SWINTR_RESET: u16 = 0x0000;

    pub const PER_RESET: bool = false;

    pub const DVAR_RESET: u32 = 0x0000_0000;

    pub const VAIR_RESET: u32 = 0x0000_0000;

    pub const VCIR_RESET: u8 = 0x00;

    // Writable bits of a vector control: its enable bit, and the input that it names.
    pub const VCIR_WRITABLE: u32 = 0x0000_002f;

    // The reset state.
    pub fn reset() -> Controller
        ensures { result ≡ reset }
    {
        Controller {
            software: Controller::SWINTR_RESET,
            enable: Controller::INTER_RESET,
            selection: Controller::INTSR_RESET,
            protection: Controller::PER_RESET,
            default: Controller::DVAR_RESET,
            addresses: [Controller::VAIR_RESET; 16],
            controls: [Controller::VCIR_RESET; 16],
        }
    }

    // The requests that are raised and enabled, with the levels of the sixteen inputs.
    fn enabled_status(self, inputs: u16) -> u16
        ensures { result ≡ enabled_status self inputs }
    {
        (inputs | self.software) & self.enable
    }

    // The IRQ status.
    pub fn irq_status(self, inputs: u16) -> u16
        ensures { result ≡ irq_status self inputs }
    {
        self.enabled_status(inputs) & !self.selection
    }

    // The FIQ status.
    pub fn fiq_status(self, inputs: u16) -> u16
        ensures { result ≡ fiq_status self inputs }
    {
        self.enabled_status(inputs) & self.selection
    }

    // The vector address of a slot; there is none past the last slot.
    pub fn address(self, slot: usize) -> u32
        ensures { result ≡ get_or self.addresses slot 0 }
    {
        self.addresses.get(slot).copied().unwrap_or(0)
    }

    // The vector control of a slot.
    pub fn control(self, slot: usize) -> u32
        ensures { result ≡ get_or self.controls slot 0 }
    {
        self.controls
            .get(slot)
            .map_or(0, |control| u32::from(*control))
    }
}
