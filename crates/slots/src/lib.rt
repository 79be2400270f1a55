// The reader of a slot of the scan queue: what its 16 words mean. scan_queue/specs/Slots.antt says it, specs/Code.antt what is
// handed back.
#![tactic(auto)]

ghost use Rattle.std.specs.Prelude.{◌≡◌, ◌+◌, ◌≤◌, length, drop, Ok};
ghost use Rattle.scan_queue.specs.Payload.{all, body_of, payload_of};
ghost use Rattle.scan_queue.specs.Slots.{slot_at, blank};
ghost use Rattle.slots.specs.Code.{payload_bytes, HeldAs, to_slot};

use numbers::Numeral;
use scan_queue::{MAX_LENGTH, MAX_SERIAL, PAYLOAD_BYTES};

pub type Payload = [u8; PAYLOAD_BYTES];

// A word of ones.
const BLANK: u32 = u32::MAX;

// A scan that was found: its serial, and where its bytes stand among the 56.
#[derive(Clone, Copy)]
pub struct Found {
    pub serial: u32,
    pub start: usize,
    pub count: usize,
}

// `Odd` is sealed with a mark that is neither all ones nor 0.
#[derive(Clone, Copy)]
pub enum Class {
    Unused,
    Dead,
    Waiting(Found),
    Taken(Found),
    Odd(Found),
}

// ---- words 2 to 15

// The 56 bytes of words 2 to 15 of the slot at word `p`, lowest byte of a word first.
pub fn payload_bytes(image: &[u32], p: usize) -> Payload
    requires { p + 16 ≤ length image.now }
    ensures { result ≡ payload_bytes image.now p }
{
    let mut bytes = [0; PAYLOAD_BYTES];
    for (i, word) in image[p + 2..p + 16].iter().enumerate() {
        let at = 4 * i;
        bytes[at..at + 4].copy_from_slice(&word.to_le_bytes());
    }
    bytes
}

// Whether all bytes from `from` on are ones.
#[tactic(auto, unfolding(scan_queue::specs::Payload::all))]
fn ones_from(bytes: &[u8], from: usize) -> bool
    ensures { result ≡ all 255 (drop from bytes.now) }
{
    bytes.iter().skip(from).all(|b| *b == 0xFF)
}

// A scan whose bytes begin after their count, and ones after them.
#[tactic(auto, using(crate::proofs::Holding::body_is))]
fn body_at(bytes: &[u8], serial: u32, count: Numeral) -> Option<Found>
    requires { (count.next ≤ length bytes.now) × (count.value ≤ 48) }
    ensures { HeldAs bytes.now (body_of bytes.now serial (Ok count)) result }
{
    let start = count.next;
    let count = count.value as usize;
    let end = start + count;
    let whole = (1 <= count) & ((end <= bytes.len()) & ones_from(bytes, end));
    whole.then_some(Found {
        serial,
        start,
        count,
    })
}

// What the 56 bytes hold.
pub fn payload_in(bytes: &[u8]) -> Option<Found>
    ensures { HeldAs bytes.now (payload_of bytes.now) result }
{
    let serial = numbers::number_to(bytes, 0, MAX_SERIAL).ok()?;
    let count = numbers::number_to(bytes, serial.next, MAX_LENGTH).ok()?;
    body_at(bytes, serial.value, count)
}

// ---- the slot

#[tactic(auto, unfolding(scan_queue::specs::Payload::all))]
fn are_blank(words: &[u32]) -> bool
    ensures { result ≡ all blank words.now }
{
    words.iter().all(|word| *word == BLANK)
}

// What words 2 to 15 of the slot at word `p` hold.
pub fn payload_at(image: &[u32], p: usize) -> Option<Found>
    requires { p + 16 ≤ length image.now }
    ensures { HeldAs (payload_bytes image.now p) (payload_of (payload_bytes image.now p)) result }
{
    payload_in(&payload_bytes(image, p))
}

// What the slot at word `p` is.
pub fn slot_at(image: &[u32], p: usize) -> Class
    requires { p + 16 ≤ length image.now }
    ensures { to_slot (payload_bytes image.now p) result ≡ slot_at image.now p }
{
    if image[p] != 0 {
        return if are_blank(&image[p..p + 16]) {
            Class::Unused
        } else {
            Class::Dead
        };
    }
    let mark = image[p + 1];
    match payload_at(image, p) {
        None => Class::Dead,
        Some(found) if mark == BLANK => Class::Waiting(found),
        Some(found) if mark == 0 => Class::Taken(found),
        Some(found) => Class::Odd(found),
    }
}
