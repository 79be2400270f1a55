// What the next write and the next take do. Only words are looked at: no call of the controller is made.
#![tactic(auto)]

ghost use Rattle.std.specs.Prelude.{◌≡◌, ◌+◌, ◌≤◌, cond, Some, None, length, take, drop};
ghost use Rattle.scan_queue.specs.Slots.{Pages, slots_from, places, queue};
ghost use Rattle.scan_queue.specs.Decisions.{none_waits};
ghost use Rattle.scan_plans.specs.Plans.{Decided, OldestIs, padded};

use scan_queue::{MAX_SERIAL, ScanRefusal, WIDE_MAX_LENGTH};
use slots::Found;
use survey::Survey;

pub type ScanBytes = [u8; WIDE_MAX_LENGTH];

// A new scan is put into the slot at a word, or into the first slot of the page at a word, which is erased first.
#[derive(Clone, Copy)]
pub enum WritePlan {
    Puts { place: usize, serial: u32 },
    Erases { page: usize, serial: u32 },
}

// The oldest waiting scan, and the word of its slot.
#[derive(Clone, Copy)]
pub struct TakePlan {
    pub place: usize,
    pub found: Found,
}

// Whether no scan waits in the page that starts at word `q`.
fn none_waits(image: &[u32], q: usize) -> bool
    requires { q + 256 ≤ length image.now }
    ensures { result ≡ none_waits image.now (slots_from 16 q) }
{
    survey::survey_page(image, q, Survey::none())
        .oldest
        .is_none()
}

// The lower page in which no scan waits.
fn page_to_erase(image: &[u32], a: usize, b: usize) -> Option<usize>
    requires { (a + 256 ≤ length image.now) × (b + 256 ≤ length image.now) }
    ensures { result ≡ cond (none_waits image.now (slots_from 16 a)) (Some a) (cond (none_waits image.now (slots_from 16 b)) (Some b) None) }
{
    if none_waits(image, a) {
        return Some(a);
    }
    none_waits(image, b).then_some(b)
}

// The lower page starts at word `a`, the higher at word `b`. A serial or length out of range is told before a full queue.
pub fn for_write(image: &[u32], a: usize, b: usize, bytes: &[u8]) -> Result<WritePlan, ScanRefusal>
    requires { Pages image.now a b }
    ensures { Decided image.now a b bytes.now result }
{
    let count = bytes.len();
    if count == 0 || WIDE_MAX_LENGTH < count {
        return Err(ScanRefusal::BadScan);
    }
    let seen = survey::survey_both(image, a, b);
    if MAX_SERIAL <= seen.highest {
        return Err(ScanRefusal::BadScan);
    }
    let serial = seen.highest + 1;
    if let Some(place) = seen.unused {
        return Ok(WritePlan::Puts { place, serial });
    }
    let page = page_to_erase(image, a, b).ok_or(ScanRefusal::Full)?;
    Ok(WritePlan::Erases { page, serial })
}

pub fn for_take(image: &[u32], a: usize, b: usize) -> Option<TakePlan>
    requires { Pages image.now a b }
    ensures { OldestIs image.now result (queue image.now (places a b)) }
{
    let place = survey::survey_both(image, a, b).oldest?.place;
    let found = slots::payload_at(image, place)?;
    Some(TakePlan { place, found })
}

// The bytes of a scan, and zeros after them.
#[tactic(auto, using(crate::proofs::Copying::copied))]
pub fn scan_bytes(payload: &[u8], start: usize, count: usize) -> ScanBytes
    requires { (count ≤ 48) × (start + count ≤ length payload.now) }
    ensures { result ≡ padded (take count (drop start payload.now)) }
{
    let mut bytes = [0; WIDE_MAX_LENGTH];
    bytes[..count].copy_from_slice(&payload[start..start + count]);
    bytes
}
