// The scan queue on registers: a write and a take. specs/Scans.antt says what each tells and leaves.
#![tactic(auto)]

ghost use Rattle.std.specs.Prelude.{◌≡◌, [], ◌∷◌, ◌+◌, ◌≤◌, ◌<◌, length, take, drop, Ok};
ghost use Rattle.model.specs.State.{flash};
ghost use Rattle.slots.specs.Code.{payload_bytes};
ghost use Rattle.scan_pages.specs.Pages.{word_address};
ghost use Rattle.scan_plans.specs.Plans.{scan_with, decision_of, Inside};
ghost use Rattle.scans.specs.Jobs.{erase_job, fill_job, zero_job, jobs, jobs_in};
ghost use Rattle.scans.specs.Scans.{told_write, write_in, no_scan, told_scan, scan_told, mark_told, take_in};

use model::{ByteAddress, Operation};
use payloads::Scan;
use registers::Registers;
use scan_plans::{ScanBytes, TakePlan, WritePlan};
use scan_queue::{ScanRefusal, WIDE_MAX_LENGTH};

// `cut` is 1 if the steps did not reach to the end, else 0.
#[repr(C)]
#[derive(Clone, Copy)]
pub struct ToldWrite {
    pub answer: u32,
    pub cut: u32,
}

#[repr(C)]
#[derive(Clone, Copy)]
pub struct ToldScan {
    pub answer: u32,
    pub cut: u32,
    pub serial: u32,
    pub length: u32,
    pub bytes: ScanBytes,
}

// ---- whole operations

const PROGRAM: u8 = 1;

const PAGE_ERASE: u8 = 2;

// An operation on data words, from word `w` on.
fn operation(kind: u8, d: u32, w: usize, count: u32) -> Operation
    requires { w ≤ 137728 }
    ensures { result ≡ record { kind = kind; partition = 0; info = 0; address = record { 0 = word_address d w }; count = count } }
{
    Operation {
        kind,
        partition: 0,
        info: 0,
        address: ByteAddress(scan_pages::address(d, w)),
        count,
    }
}

// A whole operation, for so many steps: those that are left, or `None` where the power was cut.
fn run(
    s: &mut Registers,
    image: &mut [u32],
    o: Operation,
    words: &mut [u32],
    steps: u32,
) -> Option<u32>
    ensures { record { told = result; registers = s.new; flash = flash image.new } ≡ jobs_in steps s.old (flash image.old) (record { operation = o; words = words.old } ∷ []) }
{
    let told = driving::drive(s, image, o, words, steps);
    (told.cut == 0).then_some(told.left)
}

// Programs word `w` as 0: a seal, or a mark.
fn zero(s: &mut Registers, image: &mut [u32], d: u32, w: usize, steps: u32) -> Option<u32>
    requires { w ≤ 137728 }
    ensures { record { told = result; registers = s.new; flash = flash image.new } ≡ jobs_in steps s.old (flash image.old) (zero_job d w ∷ []) }
{
    run(s, image, operation(PROGRAM, d, w, 1), &mut [0], steps)
}

// Puts a scan into the slot at word `p`, and seals it.
fn put(
    s: &mut Registers,
    image: &mut [u32],
    d: u32,
    p: usize,
    scan: Scan,
    steps: u32,
) -> Option<u32>
    requires { p + 16 ≤ 137728 }
    ensures { record { told = result; registers = s.new; flash = flash image.new } ≡ jobs_in steps s.old (flash image.old) (fill_job d p (scan_with scan.entry.serial scan.entry.bytes.now) ∷ zero_job d p ∷ []) }
{
    let mut words = payloads::payload_words(scan);
    let left = run(
        s,
        image,
        operation(PROGRAM, d, p + 2, 14),
        &mut words,
        steps,
    )?;
    zero(s, image, d, p, left)
}

// The same after an erase of the page that starts at word `q`.
fn erase_and_put(
    s: &mut Registers,
    image: &mut [u32],
    d: u32,
    q: usize,
    scan: Scan,
    steps: u32,
) -> Option<u32>
    requires { q + 16 ≤ 137728 }
    ensures { record { told = result; registers = s.new; flash = flash image.new } ≡ jobs_in steps s.old (flash image.old) (erase_job d q ∷ fill_job d q (scan_with scan.entry.serial scan.entry.bytes.now) ∷ zero_job d q ∷ []) }
{
    let left = run(s, image, operation(PAGE_ERASE, d, q, 0), &mut [0], steps)?;
    put(s, image, d, q, scan, left)
}

// ---- a write

impl From<Result<Option<u32>, ScanRefusal>> for ToldWrite {
    ghost from_gives = { λ r t. t ≡ told_write r };

    fn from(written: Result<Option<u32>, ScanRefusal>) -> ToldWrite {
        match written {
            Ok(left) => ToldWrite {
                answer: 0,
                cut: u32::from(left.is_none()),
            },
            Err(refusal) => ToldWrite {
                answer: refusal.number(),
                cut: 0,
            },
        }
    }
}

// What was decided is done.
fn done(
    s: &mut Registers,
    image: &mut [u32],
    d: u32,
    plan: WritePlan,
    bytes: &[u8],
    steps: u32,
) -> Option<u32>
    requires { Inside image.old bytes.now plan × (length image.old ≤ 137728) }
    ensures { record { told = result; registers = s.new; flash = flash image.new } ≡ jobs_in steps s.old (flash image.old) (jobs d (decision_of bytes.now (Ok plan))) }
{
    match plan {
        WritePlan::Puts { place, serial } => {
            put(s, image, d, place, Scan { serial, bytes }, steps)
        }
        WritePlan::Erases { page, serial } => {
            erase_and_put(s, image, d, page, Scan { serial, bytes }, steps)
        }
    }
}

fn written(
    s: &mut Registers,
    image: &mut [u32],
    a: u32,
    b: u32,
    bytes: &[u8],
    steps: u32,
) -> Result<Option<u32>, ScanRefusal>
    ensures { record { told = told_write result; registers = s.new; flash = flash image.new } ≡ write_in steps s.old (flash image.old) a b bytes.now }
{
    scan_pages::pages_answer(s, image, a, b)?;
    let d = registers::pages(s);
    let low = scan_pages::page_word(d, scan_pages::lower(a, b));
    let high = scan_pages::page_word(d, scan_pages::higher(a, b));
    let plan = scan_plans::for_write(image, low, high, bytes)?;
    Ok(done(s, image, d, plan, bytes, steps))
}

// A scan joins the queue in data pages `a` and `b`. 1 to 4, 16, 18 and 17, in this order.
pub fn write(
    s: &mut Registers,
    image: &mut [u32],
    a: u32,
    b: u32,
    bytes: &[u8],
    steps: u32,
) -> ToldWrite
    ensures { record { told = result; registers = s.new; flash = flash image.new } ≡ write_in steps s.old (flash image.old) a b bytes.now }
{
    ToldWrite::from(written(s, image, a, b, bytes, steps))
}

// ---- a take

impl ToldScan {
    fn none(answer: u32, cut: u32) -> ToldScan
        ensures { result ≡ no_scan answer cut }
    {
        ToldScan {
            answer,
            cut,
            serial: 0,
            length: 0,
            bytes: [0; WIDE_MAX_LENGTH],
        }
    }
}

// `None` where the power was cut.
impl From<Result<Option<ToldScan>, ScanRefusal>> for ToldScan {
    ghost from_gives = { λ r t. t ≡ told_scan r };

    fn from(taken: Result<Option<ToldScan>, ScanRefusal>) -> ToldScan {
        match taken {
            Ok(Some(told)) => told,
            Ok(None) => ToldScan::none(0, 1),
            Err(refusal) => ToldScan::none(refusal.number(), 0),
        }
    }
}

// The scan that was found is marked as taken and handed out, unless the power is cut.
fn hand_out(
    s: &mut Registers,
    image: &mut [u32],
    d: u32,
    plan: TakePlan,
    steps: u32,
) -> Option<ToldScan>
    requires { (plan.place + 16 ≤ length image.old) × (length image.old ≤ 137728) × (plan.found.count ≤ 48) × (plan.found.start + plan.found.count ≤ 56) }
    ensures { record { told = told_scan (Ok result); registers = s.new; flash = flash image.new } ≡ mark_told (scan_told plan.found.serial (take plan.found.count (drop plan.found.start (payload_bytes image.old plan.place)))) (jobs_in steps s.old (flash image.old) (zero_job d (plan.place + 1) ∷ [])) }
{
    let p = plan.place;
    let found = plan.found;
    let payload = slots::payload_bytes(image, p);
    let bytes = scan_plans::scan_bytes(&payload, found.start, found.count);
    zero(s, image, d, p + 1, steps)?;
    Some(ToldScan {
        answer: 0,
        cut: 0,
        serial: found.serial,
        length: found.count as u32,
        bytes,
    })
}

fn taken(
    s: &mut Registers,
    image: &mut [u32],
    a: u32,
    b: u32,
    steps: u32,
) -> Result<Option<ToldScan>, ScanRefusal>
    ensures { record { told = told_scan result; registers = s.new; flash = flash image.new } ≡ take_in steps s.old (flash image.old) a b }
{
    scan_pages::pages_answer(s, image, a, b)?;
    let d = registers::pages(s);
    let low = scan_pages::page_word(d, scan_pages::lower(a, b));
    let high = scan_pages::page_word(d, scan_pages::higher(a, b));
    let plan = scan_plans::for_take(image, low, high).ok_or(ScanRefusal::NoScan)?;
    Ok(hand_out(s, image, d, plan, steps))
}

// The oldest waiting scan leaves the queue. 1 to 4, 16 and 19, in this order.
pub fn take(s: &mut Registers, image: &mut [u32], a: u32, b: u32, steps: u32) -> ToldScan
    ensures { record { told = result; registers = s.new; flash = flash image.new } ≡ take_in steps s.old (flash image.old) a b }
{
    ToldScan::from(taken(s, image, a, b, steps))
}
