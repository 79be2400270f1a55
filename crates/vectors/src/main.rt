// The bench sheet of document 01 through the public calls, in the sheet's order, one line a case; then rounds (document 02, L1),
// who denies a call (L2), and what a denied read delivers (L3).
// D = 16 and all rights given unless a line says otherwise. Images start as ones, and zeros are programmed; denied reads are made
// on an image of zeros.
#![tactic(auto)]

mod asked;
mod cases;
mod deciders;
mod denied_reads;
mod drive;
mod erases;
mod given;
mod images;
mod page_rights;
mod told;
mod turns;
mod word_spans;

use asked::{Kind, data};
use registers::Registers;
use std::io;

// The order of 3 and 5.
fn no_kind(rt: &impl Print, s: &Registers) -> io::Result<()> {
    let o = data(Kind::Unknown(9), 0x0000, 1);
    print!(rt; "uninitialised controller: ")?;
    cases::case(rt, &given::all_rights(), o)?;
    print!(rt; "ready controller: ")?;
    cases::case(rt, s, o)
}

fn main(rt: HostRuntime) -> io::Result<()> {
    images::lengths(&rt)?;
    let s = given::ready();
    images::beginnings(&rt, &s)?;
    word_spans::windows(&rt, &s)?;
    word_spans::words(&rt, &s)?;
    word_spans::ends(&rt, &s)?;
    word_spans::types(&rt, &s)?;
    page_rights::two_regions(&rt, &s)?;
    page_rights::empty_regions(&rt, &s)?;
    page_rights::seeds_locked(&rt, &s)?;
    erases::erases(&rt, &s)?;
    no_kind(&rt, &s)?;
    turns::turns(&rt, &s)?;
    deciders::deciders(&rt, &s)?;
    denied_reads::denied_reads(&rt, &s)
}
