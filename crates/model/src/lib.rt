// The types of the model: what a caller hands in, what the controller holds, and what a call answers.
// What each call does is defined in specs/. There are no functions here.
#![tactic(auto)]

// ---- numbers that code shares, as specs/ has them; `WIDE` ones are for sums that pass 32 bits

// D, the data pages in each bank, is from the first to the second.
pub const MIN_PAGES: u32 = 10;

pub const MAX_PAGES: u32 = 256;

pub const PAGE_WORDS: u32 = 256;

pub const PAGE_BYTES: u32 = 1024;

// The information pages of a bank, and three of bank 0 and type 0.
pub const INFO_PAGES: u32 = 13;

pub const CREATOR_PAGE: u32 = 1;

pub const OWNER_PAGE: u32 = 2;

pub const ISOLATED_PAGE: u32 = 3;

// The largest n of a read or a program.
pub const MAX_COUNT: u32 = 1024;

pub const QUEUE_WORDS: u32 = 16;

// A lost count is at most this: then the controller goes before the host.
pub const LOST_LIMIT: u32 = 5;

// What an answer reports that names no decider.
pub const NO_DECIDER: u8 = 255;

pub const ERASED: u32 = 0xFFFF_FFFF;

pub const WIDE_PAGE_WORDS: usize = PAGE_WORDS as usize;

pub const WIDE_PAGE_BYTES: usize = PAGE_BYTES as usize;

pub const WIDE_INFO_PAGES: usize = INFO_PAGES as usize;

pub const WIDE_QUEUE_WORDS: usize = QUEUE_WORDS as usize;

pub const WIDE_MAX_COUNT: usize = MAX_COUNT as usize;

// The information pages of both banks have a setting each.
pub const INFO_SETTINGS: usize = 2 * WIDE_INFO_PAGES;

// ---- places

// A page as byte addresses count it: address / 1,024. The data pages are 0 to 2D - 1 over both banks.
#[derive(Clone, Copy)]
pub struct Page(pub u32);

// A page as the image counts it: 0 to 2(D + 13) - 1.
#[derive(Clone, Copy)]
pub struct ImagePage(pub u32);

// A bus word of the image, counted from its start.
#[derive(Clone, Copy)]
pub struct BusWord(pub u32);

// A byte address, as operations and host reads give it.
#[derive(Clone, Copy)]
pub struct ByteAddress(pub u32);

// ---- the state

// Reset leaves Uninitialised (01: fresh), initialise Ready, RMA Disabled (01: shut).
#[derive(Clone, Copy)]
pub enum Phase {
    Uninitialised,
    Ready,
    Disabled,
}

// The life-cycle inputs.
#[derive(Clone, Copy)]
pub struct Inputs {
    pub provision: bool,
    pub locked: bool,
}

// A memory protection region: `count` data pages from `first` on.
#[derive(Clone, Copy)]
pub struct Region {
    pub on: bool,
    pub first: Page,
    pub count: u32,
    pub rights: u8,
}

// The setting of one information page.
#[derive(Clone, Copy)]
pub struct PageSetting {
    pub on: bool,
    pub rights: u8,
}

// What the setting calls set. `info` has 13 pages of bank 0, then 13 of bank 1; `erase` a permission for each bank.
#[derive(Clone, Copy)]
pub struct Settings {
    pub regions: [Region; 8],
    pub default_rights: u8,
    pub info: [PageSetting; INFO_SETTINGS],
    pub erase: [bool; 2],
}

// The error record: the recorded kinds (refusals 5, 7, 8 and 9), and the address of the last one.
#[derive(Clone, Copy)]
pub struct Errors {
    pub malformed: bool,
    pub range: bool,
    pub window: bool,
    pub denied: bool,
    pub address: ByteAddress,
}

// A queue of bus words. It holds the first `len` of `words`, oldest first; the places after them are no part of it.
#[derive(Clone, Copy)]
pub struct Queue {
    pub words: [u32; WIDE_QUEUE_WORDS],
    pub len: u32,
}

#[derive(Clone, Copy)]
pub struct Queues {
    pub reads: Queue,
    pub programs: Queue,
}

// An operation as a caller asks for it: `info` is the information type, `count` the number n of bus words.
#[derive(Clone, Copy)]
pub struct Operation {
    pub kind: u8,
    pub partition: u8,
    pub info: u8,
    pub address: ByteAddress,
    pub count: u32,
}

// An operation that was started, and how many of its words have moved. Of a read, the first `readable` words are
// the true ones, those before its first denied page, and the others are ones.
#[derive(Clone, Copy)]
pub enum Work {
    Read {
        op: Operation,
        moved: u32,
        readable: u32,
    },
    Program {
        op: Operation,
        moved: u32,
    },
    Erase {
        op: Operation,
        moved: u32,
    },
}

// What is in progress, if anything.
pub type Progress = Option<Work>;

// What checks 5, 7, 8 and 9 of an operation look at: `pages` is D, the number of data pages in each bank. Only reset, the
// inputs and the settings change it.
#[derive(Clone, Copy)]
pub struct Setup {
    pub pages: u32,
    pub inputs: Inputs,
    pub settings: Settings,
}

// What the flash physical controller keeps (001): for each bank, how often the controller lost its turn to the host.
#[derive(Clone, Copy)]
pub struct Physical {
    pub lost: [u32; 2],
}

// The whole state.
#[derive(Clone, Copy)]
pub struct Controller {
    pub setup: Setup,
    pub phase: Phase,
    pub errors: Errors,
    pub queues: Queues,
    pub progress: Progress,
    pub physical: Physical,
}

// ---- who decides

// Who decides what may be done: of a data page the region of that number or the default rights, of an information page its
// setting or the seed lock, and of a bank erase the bank's permission. (02, L2)
#[derive(Clone, Copy)]
pub enum Decider {
    Region(u8),
    Default,
    PageSetting,
    SeedLock,
    BankPermission,
}

// What the look-up of rights answers for a page.
#[derive(Clone, Copy)]
pub struct Ruling {
    pub rights: u8,
    pub decider: Decider,
}

// ---- what calls hand back

// Why a call is refused. Where access is denied, it says who decided. specs/Refusals.antt gives each its number in 01, and what
// it reports.
#[derive(Clone, Copy)]
pub enum Refusal {
    Invalid,
    Disabled,
    Uninitialised,
    Busy,
    Malformed,
    ShortBuffer,
    OutOfRange,
    CrossesWindow,
    Denied(Decider),
    QueueEmpty,
    QueueFull,
    Unexpected,
    BadSetting,
}

// A call's answer: accepted, or the refusal.
pub type Answer = Result<(), Refusal>;

// What a step that is not refused did: a word moved, the last word moved, or nothing yet (01: waiting).
#[derive(Clone, Copy)]
pub enum Movement {
    Moved,
    Finished,
    Stalled,
}

// Of reset, the inputs, the settings, start, push, clear and RMA.
#[derive(Clone, Copy)]
pub struct Outcome {
    pub controller: Controller,
    pub answer: Answer,
}

// Of pop and host read.
#[derive(Clone, Copy)]
pub struct Fetched {
    pub controller: Controller,
    pub answer: Answer,
    pub word: u32,
}

// Of step.
#[derive(Clone, Copy)]
pub struct Stepped {
    pub controller: Controller,
    pub answer: Answer,
    pub movement: Option<Movement>,
    pub bits: u32,
}

// What the host asks in a round: the word at an address, or nothing.
pub type HostRequest = Option<ByteAddress>;

// Of each side of a round: it asked nothing, it waits for its turn, or it was answered by its own call.
#[derive(Clone, Copy)]
pub enum Turn {
    Unasked,
    Waiting,
    Served,
}

#[derive(Clone, Copy)]
pub struct HostTurn {
    pub turn: Turn,
    pub answer: Answer,
    pub word: u32,
}

#[derive(Clone, Copy)]
pub struct StepTurn {
    pub turn: Turn,
    pub answer: Answer,
    pub movement: Option<Movement>,
    pub bits: u32,
}

// Of a round.
#[derive(Clone, Copy)]
pub struct Rounded {
    pub controller: Controller,
    pub host: HostTurn,
    pub step: StepTurn,
}

// The creator and the owner seed.
#[derive(Clone, Copy)]
pub struct Seeds {
    pub creator: [u32; 8],
    pub owner: [u32; 8],
}

// Of initialise.
#[derive(Clone, Copy)]
pub struct Initialised {
    pub controller: Controller,
    pub answer: Answer,
    pub seeds: Option<Seeds>,
}

// Of a whole operation: the bits are the sum over its steps.
#[derive(Clone, Copy)]
pub struct Completed {
    pub controller: Controller,
    pub answer: Answer,
    pub bits: u32,
}
