// Regions, and the seed pages.
use super::asked::{Kind, data, information};
use super::cases::{case, cases};
use super::drive;
use super::given::{ALL_RIGHTS, NO_RIGHT, READ_RIGHT};
use super::told::Answered;
use model::{Inputs, PAGE_BYTES, Page, Region};
use registers::Registers;
use std::io;

// The data pages of both banks.
const DATA_PAGES: u32 = 32;

// ---- regions

pub fn region(on: bool, first: u32, count: u32, rights: u8) -> Region {
    Region {
        on,
        first: Page(first),
        count,
        rights,
    }
}

pub fn on_or_off(on: bool) -> &'static str {
    if on { "on" } else { "off" }
}

pub fn set_region(rt: &impl Print, s: &mut Registers, number: u32, g: Region) -> io::Result<()> {
    let on = on_or_off(g.on);
    let first = g.first.0;
    let count = g.count;
    let rights = g.rights;
    let answer = Answered::from(settings::set_region(s, number, g));
    println!(rt;
        "set region {number} {on}, first page {first}, count {count}, rights {rights}: {answer}"
    )
}

pub fn two_regions(rt: &impl Print, s: &Registers) -> io::Result<()> {
    let mut now = *s;
    let in_page_2 = data(Kind::Program, 0x0800, 1);
    set_region(rt, &mut now, 0, region(true, 2, 2, READ_RIGHT))?;
    set_region(rt, &mut now, 1, region(true, 0, 8, ALL_RIGHTS))?;
    cases(rt, &now, &[in_page_2, data(Kind::Program, 0x1000, 1)])?;
    set_region(rt, &mut now, 0, region(false, 2, 2, READ_RIGHT))?;
    case(rt, &now, in_page_2)
}

fn may_program(s: &Registers, address: u32) -> bool {
    let mut now = *s;
    drive::start(&mut now, data(Kind::Program, address, 1)).is_accepted()
}

// On how many of the data pages a program may start.
fn allowed_pages(s: &Registers) -> usize {
    (0..DATA_PAGES)
        .filter(|page| may_program(s, *page * PAGE_BYTES))
        .count()
}

// The region has no right, so a page that it held would be denied.
pub fn empty_regions(rt: &impl Print, s: &Registers) -> io::Result<()> {
    let mut now = *s;
    set_region(rt, &mut now, 0, region(true, 2, 0, NO_RIGHT))?;
    let allowed = allowed_pages(&now);
    println!(rt; "program allowed on {allowed} of {DATA_PAGES} data pages")?;
    set_region(rt, &mut now, 0, region(true, DATA_PAGES, 0, NO_RIGHT))?;
    set_region(rt, &mut now, 0, region(true, DATA_PAGES, 1, NO_RIGHT))
}

// ---- seed pages

fn page_kinds(rt: &impl Print, s: &Registers, name: &str, address: u32) -> io::Result<()> {
    for kind in [Kind::Read, Kind::Program, Kind::PageErase] {
        print!(rt; "{name}: ")?;
        case(rt, s, information(kind, 0, address, 1))?;
    }
    Ok(())
}

pub fn seeds_locked(rt: &impl Print, s: &Registers) -> io::Result<()> {
    let mut now = *s;
    let inputs = Inputs {
        provision: true,
        locked: true,
    };
    let answer = Answered::from(inputs::set_inputs(&mut now, inputs));
    println!(rt; "provision on, seeds locked: {answer}")?;
    page_kinds(rt, &now, "owner page", 0x0800)?;
    page_kinds(rt, &now, "creator page", 0x0400)
}
