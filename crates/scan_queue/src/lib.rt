// The scan queue in the words of two pages: what slots hold and what waits, what a write and a take do, and that no cut of the power
// loses a scan. It is stated in specs/, with laws in proofs/. The only function tells a refusal's number.
#![tactic(auto)]

ghost use Rattle.std.specs.Prelude.{◌≡◌};
ghost use Rattle.scan_queue.specs.declared.ScanRefusal.TheVariants.{Controller};
ghost use Rattle.scan_queue.specs.Decisions.{refusal_number};

use model::Refusal;

// Words 2 to 15 of a slot have 56 bytes.
pub const PAYLOAD_BYTES: usize = 56;

pub const MAX_SERIAL: u32 = 0xFFF_FFFF;

// A scan has 1 to 48 bytes.
pub const MAX_LENGTH: u32 = 48;

pub const WIDE_MAX_LENGTH: usize = MAX_LENGTH as usize;

// Why the queue refuses a call: by refusals 1 to 4, as a whole operation; or its pages don't serve, no slot is free, the scan is
// out of range, or none waits.
#[derive(Clone, Copy)]
pub enum ScanRefusal {
    Controller(Refusal),
    BadPages,
    Full,
    BadScan,
    NoScan,
}

impl From<Refusal> for ScanRefusal {
    ghost from_gives = { λ r e. e ≡ Controller r };

    fn from(refusal: Refusal) -> ScanRefusal {
        ScanRefusal::Controller(refusal)
    }
}

impl ScanRefusal {
    pub fn number(self) -> u32
        ensures { result ≡ refusal_number self }
    {
        match self {
            ScanRefusal::Controller(refusal) => u32::from(refusals::number(refusal)),
            ScanRefusal::BadPages => 16,
            ScanRefusal::Full => 17,
            ScanRefusal::BadScan => 18,
            ScanRefusal::NoScan => 19,
        }
    }
}
