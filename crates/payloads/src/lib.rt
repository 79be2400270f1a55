// What a write puts into words 2 to 15 of a slot. scan_queue/specs/Payload.antt says it (`written`).
#![tactic(auto)]

ghost use Rattle.std.specs.Prelude.{◌≡◌, ◌≤◌, ◌<◌, length};
ghost use Rattle.scan_queue.specs.Payload.{words_of, written};
ghost use Rattle.payloads.specs.Fill.{GroupsOf};

use scan_queue::PAYLOAD_BYTES;

// Groups of seven bits, low group first; `Copy`, which the kit's `ArrayVec` is not.
#[derive(Clone, Copy)]
pub struct Groups {
    pub count: usize,
    pub bytes: [u8; 4],
}

#[tactic(auto, using(crate::proofs::Laying::group_room, crate::proofs::Laying::groups_laid))]
pub fn groups_of(v: u32) -> Groups
    requires { v < 268435456 }
    ensures { GroupsOf v result }
{
    let mut groups = Groups {
        count: 0,
        bytes: [0; 4],
    };
    let mut rest = v;
    while 128 <= rest {
        groups.bytes[groups.count] = (rest % 128 + 128) as u8;
        groups.count += 1;
        rest /= 128;
    }
    groups.bytes[groups.count] = rest as u8;
    groups.count += 1;
    groups
}

// A scan that is to be written: its serial and length are in range.
#[derive(Clone, Copy)]
pub struct Scan<'a> {
    pub serial: u32,
    pub bytes: &'a [u8],
    ghost low: { serial < 268435456 },
    ghost short: { length bytes.now ≤ 48 },
}

// The 56 bytes: the serial's groups, the length, the scan's bytes, and ones to the end.
fn laid_bytes(scan: Scan) -> [u8; PAYLOAD_BYTES]
    ensures { result ≡ written (record { serial = scan.entry.serial; bytes = scan.entry.bytes.now }) }
{
    let bytes = scan.bytes;
    let groups = groups_of(scan.serial);
    let n = groups.count;
    let start = n + 1;
    let mut laid = [0xFF; PAYLOAD_BYTES];
    laid[..n].copy_from_slice(&groups.bytes[..n]);
    laid[n] = bytes.len() as u8;
    laid[start..start + bytes.len()].copy_from_slice(bytes);
    laid
}

// Words 2 to 15 of a slot that holds this scan.
pub fn payload_words(scan: Scan) -> [u32; 14]
    ensures { result ≡ words_of (written (record { serial = scan.entry.serial; bytes = scan.entry.bytes.now })) }
{
    let laid = laid_bytes(scan);
    let mut words = [0; 14];
    for (i, word) in words.iter_mut().enumerate() {
        let at = 4 * i;
        *word = u32::from_le_bytes([laid[at], laid[at + 1], laid[at + 2], laid[at + 3]]);
    }
    words
}
