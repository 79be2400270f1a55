// What the run of a bench sheet does and leaves: stated in specs/, with laws in proofs/. There are no functions here.
#![tactic(auto)]

use sheets::Verdict;

// What an operation prints.
#[derive(Clone, Copy)]
pub struct Line {
    pub answer: u32,
    pub bits: u32,
}

// The verdict, and how many numbers were written to the row. Not one Result: a bad sheet tells of how many too, which the edit
// `numbers_of_a_bad_sheet` turns and `LeavesAsCalls` states of every sheet.
#[derive(Clone, Copy)]
pub struct Ran {
    pub verdict: Verdict,
    pub numbers: u32,
}
