// The numbered results of the bench: done, or why a call is refused.
#![tactic(auto)]

ghost use Rattle.std.specs.Prelude.{◌≡◌};
ghost use Rattle.answer.specs.Refusals.{refusal_number, number_of};

// Why a call is refused, with the number that says so: each case has that of its constant below.
#[derive(Clone, Copy, Debug, PartialEq, Eq)]
pub enum Refusal {
    // Window not allowed.
    WindowNotAllowed = WINDOW_NOT_ALLOWED as isize,
    // Register not modelled.
    RegisterNotModelled = REGISTER_NOT_MODELLED as isize,
    // That engine is not running.
    NotRunning = NOT_RUNNING as isize,
    // Frame under 64 or over 1,518 bytes.
    FrameLength = FRAME_LENGTH as isize,
    // Frame check sequence wrong.
    FrameCheck = FRAME_CHECK as isize,
    // Address not for this station.
    Address = ADDRESS as isize,
    // Chain fault.
    ChainFault = CHAIN_FAULT as isize,
    // Descriptor not granted.
    NotGranted = NOT_GRANTED as isize,
    // Output shorter than 1,518 bytes.
    OutputShort = OUTPUT_SHORT as isize,
    // Step allowance over 4,096.
    Allowance = ALLOWANCE as isize,
    // Lent memory not of the window's length.
    LentLength = LENT_LENGTH as isize,
    // Send length under 14 or over 1,514.
    SendLength = SEND_LENGTH as isize,
    // Descriptor not at a multiple of 4 or not all in the window, or, for reading only, no frame to show.
    NoDescriptor = NO_DESCRIPTOR as isize,
    // Descriptor already granted.
    AlreadyGranted = ALREADY_GRANTED as isize,
    // Next-descriptor register written while its engine runs.
    EngineRuns = ENGINE_RUNS as isize,
    // Of one pair: it passes the store's end. Of a whole burst: more than 64 pairs, or lists of different lengths.
    Burst = BURST as isize,
    // Of a trace that is read: the length of a block.
    BlockLength = BLOCK_LENGTH as isize,
    // The number of a block.
    BlockNumber = BLOCK_NUMBER as isize,
    // The check of a block.
    BlockCheck = BLOCK_CHECK as isize,
    // The used length of a block.
    UsedLength = USED_LENGTH as isize,
    // A byte of a block behind the used ones that is not zero.
    ZeroFill = ZERO_FILL as isize,
    // A byte that no event can have there, an event that is cut, a header that is cut or of a window that is not allowed.
    Event = EVENT as isize,
    // Too little room for the events.
    EventRoom = EVENT_ROOM as isize,
    // Of a replay: fewer answers than events.
    AnswersShort = ANSWERS_SHORT as isize,
    // Of a trace that is written: the event list is not of its form.
    EventList = EVENT_LIST as isize,
    // Base and length are no allowed window.
    TraceWindow = TRACE_WINDOW as isize,
    // Over 65,536 blocks.
    Blocks = BLOCKS as isize,
    // Too little room for the blocks.
    BlockRoom = BLOCK_ROOM as isize,
    // Of frames that are exported: the list is not of its form.
    FrameList = FRAME_LIST as isize,
    // Too little room for the capture.
    CaptureRoom = CAPTURE_ROOM as isize,
    // Of a capture that is imported: its header is cut.
    CaptureHeader = CAPTURE_HEADER as isize,
    // Another magic.
    Magic = MAGIC as isize,
    // Another version.
    Version = VERSION as isize,
    // Another link type.
    LinkType = LINK_TYPE as isize,
    // A record that is cut.
    RecordCut = RECORD_CUT as isize,
    // A record whose two lengths are unequal.
    RecordLengths = RECORD_LENGTHS as isize,
    // Too little room for the events or the times.
    ImportRoom = IMPORT_ROOM as isize,
}

impl From<Refusal> for u32 {
    ghost from_gives = { λ refusal number. number ≡ refusal_number refusal };

    fn from(refusal: Refusal) -> u32 {
        refusal as u32
    }
}

// The number of an answer: 0 where it is done, else that of its refusal.
pub fn number_of<T>(answer: &Result<T, Refusal>) -> u32
    ensures { result ≡ number_of answer.now }
{
    match answer {
        Ok(_) => DONE,
        Err(refusal) => u32::from(*refusal),
    }
}

// The numbers by name, for the cases above and where an answer is a number.
pub const DONE: u32 = 0;

pub const WINDOW_NOT_ALLOWED: u32 = 1;

pub const REGISTER_NOT_MODELLED: u32 = 2;

pub const NOT_RUNNING: u32 = 3;

pub const FRAME_LENGTH: u32 = 4;

pub const FRAME_CHECK: u32 = 5;

pub const ADDRESS: u32 = 6;

pub const CHAIN_FAULT: u32 = 7;

pub const NOT_GRANTED: u32 = 8;

pub const OUTPUT_SHORT: u32 = 9;

pub const ALLOWANCE: u32 = 10;

pub const LENT_LENGTH: u32 = 11;

pub const SEND_LENGTH: u32 = 12;

pub const NO_DESCRIPTOR: u32 = 13;

pub const ALREADY_GRANTED: u32 = 14;

pub const ENGINE_RUNS: u32 = 15;

pub const BURST: u32 = 16;

pub const BLOCK_LENGTH: u32 = 17;

pub const BLOCK_NUMBER: u32 = 18;

pub const BLOCK_CHECK: u32 = 19;

pub const USED_LENGTH: u32 = 20;

pub const ZERO_FILL: u32 = 21;

pub const EVENT: u32 = 22;

pub const EVENT_ROOM: u32 = 23;

pub const ANSWERS_SHORT: u32 = 24;

pub const EVENT_LIST: u32 = 25;

pub const TRACE_WINDOW: u32 = 26;

pub const BLOCKS: u32 = 27;

pub const BLOCK_ROOM: u32 = 28;

pub const FRAME_LIST: u32 = 29;

pub const CAPTURE_ROOM: u32 = 30;

pub const CAPTURE_HEADER: u32 = 31;

pub const MAGIC: u32 = 32;

pub const VERSION: u32 = 33;

pub const LINK_TYPE: u32 = 34;

pub const RECORD_CUT: u32 = 35;

pub const RECORD_LENGTHS: u32 = 36;

pub const IMPORT_ROOM: u32 = 37;
