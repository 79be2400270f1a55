// Bench sheets: their types and limits; what they mean is stated in specs/, with laws in proofs/. There are no functions here.
#![tactic(auto)]

use model::Operation;
use numbers::Parsed;

// A sheet's bytes, and the entries 1 and 3 that it runs: at most these.
pub const MAX_BYTES: usize = 4096;

pub const MAX_ENTRIES: u32 = 4096;

pub const WIDE_MAX_ENTRIES: usize = MAX_ENTRIES as usize;

pub const MAX_RIGHTS: u32 = 7;

pub const MAX_TIMES: u32 = 255;

// ---- the tags of entries; 0 ends a block

pub const OPERATION: u32 = 1;

pub const REPEAT: u32 = 2;

pub const RIGHTS: u32 = 3;

// Entry 1 as the sheet states it: `words` is the place of the first word that it carries, `end` its last number. The operation and
// that place are of use only where `end` is not bad. No Result: `stated_at` and `request_at` have an answer at every place.
#[derive(Clone, Copy)]
pub struct Stated {
    pub op: Operation,
    pub words: usize,
    pub end: Parsed,
}

// What an entry asks for: a whole operation, or default rights.
#[derive(Clone, Copy)]
pub enum Request {
    Whole { op: Operation, words: usize },
    Rights(u8),
}

// Good, with the number of entries that run, or refused, with the place where it is bad.
pub type Verdict = Result<u32, usize>;
