// The registers: the state as numbers that the caller lends, changed where they lie. Each part is read as the model's own
// type, and no other crate knows where it lies.
#![tactic(auto)]

ghost use Rattle.std.specs.Prelude.{◌≡◌, ◌+◌, ◌<◌, ◌≤◌, ◌%◌, get_or, set};
ghost use Rattle.registers.specs.Layout.{pages_at, phase_at, default_at, region_from, page_from, permission_at, moved_at, reads_from, programs_from, lost_from};
ghost use Rattle.registers.specs.Registers.{phase_of, inputs_at, region_at, setting_at, operation_at, work_at, progress_at, queue_at, errors_at, is_on, progress_encoded, plain_encoded, mask_of, flag_of, phase_number, put_inputs, put_region, put_setting, put_erase, put_queue, put_running, put_errors, no_progress, cleared};

use model::{
    ByteAddress, Errors, Inputs, Operation, Page, PageSetting, Phase, Progress, Queue, Region,
    WIDE_QUEUE_WORDS, Work,
};

// ---- where each part lies

pub const COUNT: usize = 137;

const PAGES: usize = 0;

const PHASE: usize = 1;

const PROVISION: usize = 2;

const LOCKED: usize = 3;

const DEFAULT: usize = 4;

const REGIONS: usize = 5;

const INFO: usize = 37;

const PERMISSIONS: usize = 89;

const ADDRESS: usize = 91;

const WORDS: usize = 92;

const KIND: usize = 93;

const PARTITION: usize = 94;

const TYPE: usize = 95;

const MOVED: usize = 96;

const READABLE: usize = 97;

const RUNNING: usize = 98;

const READS: usize = 99;

const PROGRAMS: usize = 116;

const RECORDED: usize = 133;

const LAST: usize = 134;

const LOST: usize = 135;

// A queue has 16 words, and then their number.
const LENGTH: usize = WIDE_QUEUE_WORDS;

pub type Registers = [u32; COUNT];

// ---- the phase, the inputs and the settings

// D, the number of data pages in each bank.
pub fn pages(s: &Registers) -> u32
    ensures { result ≡ get_or s.now pages_at 0 }
{
    s[PAGES]
}

pub fn phase(s: &Registers) -> Phase
    ensures { result ≡ phase_of (get_or s.now phase_at 0) }
{
    match s[PHASE] {
        1 => Phase::Ready,
        2 => Phase::Disabled,
        _ => Phase::Uninitialised,
    }
}

pub fn inputs(s: &Registers) -> Inputs
    ensures { result ≡ inputs_at s.now }
{
    let provision = s[PROVISION] != 0;
    let locked = s[LOCKED] != 0;
    Inputs { provision, locked }
}

pub fn default_rights(s: &Registers) -> u8
    ensures { result ≡ get_or s.now default_at 0 % 256 }
{
    (s[DEFAULT] % 256) as u8
}

pub fn region(s: &Registers, i: usize) -> Region
    requires { i < 8 }
    ensures { result ≡ region_at s.now i }
{
    let at = REGIONS + 4 * i;
    let first = s[at];
    let count = s[at + 1];
    let on = s[at + 2] != 0;
    let rights = (s[at + 3] % 256) as u8;
    Region {
        on,
        first: Page(first),
        count,
        rights,
    }
}

pub fn page_setting(s: &Registers, i: usize) -> PageSetting
    requires { i < 26 }
    ensures { result ≡ setting_at s.now i }
{
    let at = INFO + 2 * i;
    let on = s[at] != 0;
    let rights = (s[at + 1] % 256) as u8;
    PageSetting { on, rights }
}

// Whether a bank may be erased.
pub fn permission(s: &Registers, bank: usize) -> bool
    requires { bank ≤ 1 }
    ensures { result ≡ is_on (get_or s.now (permission_at bank) 0) }
{
    s[PERMISSIONS + bank] != 0
}

// ---- the operation in progress

// As it was started. While nothing is in progress, no rule looks at it.
pub fn operation(s: &Registers) -> Operation
    ensures { result ≡ operation_at s.now }
{
    let kind = (s[KIND] % 256) as u8;
    let partition = (s[PARTITION] % 256) as u8;
    let info = (s[TYPE] % 256) as u8;
    let address = s[ADDRESS];
    let count = s[WORDS];
    Operation {
        kind,
        partition,
        info,
        address: ByteAddress(address),
        count,
    }
}

// How many of its words have moved.
pub fn moved(s: &Registers) -> u32
    ensures { result ≡ get_or s.now moved_at 0 }
{
    s[MOVED]
}

fn work(s: &Registers) -> Work
    ensures { result ≡ work_at s.now }
{
    let op = operation(s);
    let moved = s[MOVED];
    if places::is_read(op) {
        let readable = s[READABLE];
        return Work::Read {
            op,
            moved,
            readable,
        };
    }
    if places::is_program(op) {
        return Work::Program { op, moved };
    }
    Work::Erase { op, moved }
}

#[tactic(auto, unfolding(crate::specs::Registers::progress_at))]
pub fn progress(s: &Registers) -> Progress
    ensures { result ≡ progress_at s.now }
{
    if s[RUNNING] != 0 { Some(work(s)) } else { None }
}

// ---- the error record

pub fn errors(s: &Registers) -> Errors
    ensures { result ≡ errors_at s.now }
{
    let mask = s[RECORDED];
    let address = s[LAST];
    Errors {
        malformed: mask / 32 % 2 == 1,
        range: mask / 128 % 2 == 1,
        window: mask / 256 % 2 == 1,
        denied: mask / 512 % 2 == 1,
        address: ByteAddress(address),
    }
}

// ---- the lost count of a bank

pub fn lost(s: &Registers, bank: usize) -> u32
    requires { bank ≤ 1 }
    ensures { result ≡ get_or s.now (lost_from + bank) 0 }
{
    s[LOST + bank]
}

// ---- the queues: one reader and one writer for both, by names that keep their places in this crate

#[tactic(auto, using(crate::proofs::Listed::part_listed))]
fn queue(s: &Registers, at: usize) -> Queue
    requires { at ≤ 116 }
    ensures { result ≡ queue_at s.now at }
{
    let mut words = [0u32; WIDE_QUEUE_WORDS];
    words.copy_from_slice(&s[at..at + LENGTH]);
    let len = s[at + LENGTH];
    Queue { words, len }
}

pub fn reads(s: &Registers) -> Queue
    ensures { result ≡ queue_at s.now reads_from }
{
    queue(s, READS)
}

pub fn programs(s: &Registers) -> Queue
    ensures { result ≡ queue_at s.now programs_from }
{
    queue(s, PROGRAMS)
}

// How many words a queue holds.
pub fn read_count(s: &Registers) -> u32
    ensures { result ≡ (queue_at s.now reads_from).len }
{
    s[READS + LENGTH]
}

pub fn program_count(s: &Registers) -> u32
    ensures { result ≡ (queue_at s.now programs_from).len }
{
    s[PROGRAMS + LENGTH]
}

// ---- whether every number stands for something

// The flag and the rights of a table's row, as they lie.
#[derive(Clone, Copy)]
pub struct Row {
    pub flag: u32,
    pub rights: u32,
}

pub fn region_row(s: &Registers, i: usize) -> Row
    requires { i < 8 }
    ensures { result ≡ record { flag = get_or s.now (region_from i + 2) 0; rights = get_or s.now (region_from i + 3) 0 } }
{
    let at = REGIONS + 4 * i;
    Row {
        flag: s[at + 2],
        rights: s[at + 3],
    }
}

pub fn page_row(s: &Registers, i: usize) -> Row
    requires { i < 26 }
    ensures { result ≡ record { flag = get_or s.now (page_from i) 0; rights = get_or s.now (page_from i + 1) 0 } }
{
    let at = INFO + 2 * i;
    Row {
        flag: s[at],
        rights: s[at + 1],
    }
}

pub fn progress_encoded(s: &Registers) -> bool
    ensures { result ≡ progress_encoded s.now }
{
    let flag = s[RUNNING] <= 1;
    let running = s[RUNNING] != 0;
    let kind = s[KIND] <= 3;
    let partition = s[PARTITION] <= 255;
    let info = s[TYPE] <= 255;
    flag & (!running | (kind & (partition & info)))
}

pub fn flag_of(b: bool) -> u32
    ensures { (result ≡ flag_of b) × (result ≤ 1) }
{
    if b { 1 } else { 0 }
}

fn mask_of(e: Errors) -> u32
    ensures { result ≡ mask_of e }
{
    let malformed = flag_of(e.malformed);
    let range = flag_of(e.range);
    let window = flag_of(e.window);
    let denied = flag_of(e.denied);
    32 * malformed + (128 * range + (256 * window + 512 * denied))
}

// All but the tables and the operation in progress.
pub fn plain_encoded(s: &Registers) -> bool
    ensures { result ≡ plain_encoded s.now }
{
    let known = mask_of(errors(s)) == s[RECORDED];
    let phase = s[PHASE] <= 2;
    let provision = s[PROVISION] <= 1;
    let locked = s[LOCKED] <= 1;
    let rights = s[DEFAULT] <= 255;
    let first = s[PERMISSIONS] <= 1;
    let second = s[PERMISSIONS + 1] <= 1;
    phase & (provision & (locked & (rights & (first & (second & known)))))
}

// ---- what calls write

pub fn put_phase(s: &mut Registers, p: Phase)
    ensures { s.new ≡ set s.old phase_at (phase_number p) }
{
    s[PHASE] = phase_number(p);
}

fn phase_number(p: Phase) -> u32
    ensures { result ≡ phase_number p }
{
    match p {
        Phase::Uninitialised => 0,
        Phase::Ready => 1,
        Phase::Disabled => 2,
    }
}

pub fn put_inputs(s: &mut Registers, i: Inputs)
    ensures { s.new ≡ put_inputs s.old i }
{
    s[PROVISION] = flag_of(i.provision);
    s[LOCKED] = flag_of(i.locked);
}

pub fn put_default(s: &mut Registers, rights: u8)
    ensures { s.new ≡ set s.old default_at rights }
{
    s[DEFAULT] = rights as u32;
}

pub fn put_region(s: &mut Registers, i: usize, g: Region)
    requires { i < 8 }
    ensures { s.new ≡ put_region s.old i g }
{
    let at = REGIONS + 4 * i;
    let first = g.first;
    s[at] = first.0;
    s[at + 1] = g.count;
    s[at + 2] = flag_of(g.on);
    s[at + 3] = g.rights as u32;
}

pub fn put_page(s: &mut Registers, i: usize, p: PageSetting)
    requires { i < 26 }
    ensures { s.new ≡ put_setting s.old i p }
{
    let at = INFO + 2 * i;
    s[at] = flag_of(p.on);
    s[at + 1] = p.rights as u32;
}

pub fn put_permission(s: &mut Registers, bank: usize, on: bool)
    requires { bank ≤ 1 }
    ensures { s.new ≡ put_erase s.old bank on }
{
    s[PERMISSIONS + bank] = flag_of(on);
}

// A running operation, none of its words moved; `readable` counts for a read alone.
pub fn put_running(s: &mut Registers, o: Operation, readable: u32)
    ensures { s.new ≡ put_running s.old o 0 readable }
{
    let address = o.address;
    s[ADDRESS] = address.0;
    s[WORDS] = o.count;
    s[KIND] = o.kind as u32;
    s[PARTITION] = o.partition as u32;
    s[TYPE] = o.info as u32;
    s[MOVED] = 0;
    s[READABLE] = readable;
    s[RUNNING] = 1;
}

pub fn put_moved(s: &mut Registers, moved: u32)
    ensures { s.new ≡ set s.old moved_at moved }
{
    s[MOVED] = moved;
}

// An operation that has ended leaves zeros.
pub fn no_progress(s: &mut Registers)
    ensures { s.new ≡ no_progress s.old }
{
    s[ADDRESS] = 0;
    s[WORDS] = 0;
    s[KIND] = 0;
    s[PARTITION] = 0;
    s[TYPE] = 0;
    s[MOVED] = 0;
    s[READABLE] = 0;
    s[RUNNING] = 0;
}

#[tactic(auto, using(model::proofs::Parts::part_stored))]
fn put_queue(s: &mut Registers, at: usize, q: Queue)
    requires { at ≤ 116 }
    ensures { s.new ≡ put_queue s.old at q }
{
    s[at..at + LENGTH].copy_from_slice(&q.words);
    s[at + LENGTH] = q.len;
}

pub fn put_reads(s: &mut Registers, q: Queue)
    ensures { s.new ≡ put_queue s.old reads_from q }
{
    put_queue(s, READS, q);
}

pub fn put_programs(s: &mut Registers, q: Queue)
    ensures { s.new ≡ put_queue s.old programs_from q }
{
    put_queue(s, PROGRAMS, q);
}

pub fn put_errors(s: &mut Registers, e: Errors)
    ensures { s.new ≡ put_errors s.old e }
{
    let address = e.address;
    s[RECORDED] = mask_of(e);
    s[LAST] = address.0;
}

pub fn put_lost(s: &mut Registers, bank: usize, count: u32)
    requires { bank ≤ 1 }
    ensures { s.new ≡ set s.old (lost_from + bank) count }
{
    s[LOST + bank] = count;
}

// Every register is 0, but D.
#[tactic(auto, using(crate::proofs::Cleared::zeros_cleared))]
pub fn clear(s: &mut Registers, pages: u32)
    ensures { s.new ≡ cleared s.old pages }
{
    s.fill(0);
    s[PAGES] = pages;
}
