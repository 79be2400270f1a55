// Who decided that a call is denied (document 02, L2).
use super::asked::{Kind, data, information};
use super::cases::cases;
use super::drive::Flash;
use super::given::{ALL_RIGHTS, NO_RIGHT, ONES, PROGRAM_RIGHT, WORDS};
use super::page_rights::{on_or_off, region, set_region};
use super::told::Answered;
use super::turns::{host_alone, round};
use super::word_spans::host_read;
use model::{Inputs, PAGE_BYTES, Page, PageSetting};
use registers::Registers;
use std::io;

// ---- data pages

// As long as the view, or no word if it is refused.
fn view(rt: &impl Print, s: &Registers, page: u32) -> io::Result<()> {
    let image = [ONES; WORDS];
    let mut refusal = 0u8;
    let mut decider = 0u8;
    let words = host::view(s, &image, Page(page), &mut refusal, &mut decider).len();
    let answer = Answered::ruled(refusal, decider);
    println!(rt; "view of page {page}: {answer}, {words} words")
}

// A host read, by itself and in a round, and a view.
fn host(rt: &impl Print, s: &Registers, at: u32) -> io::Result<()> {
    host_read(rt, s, at)?;
    round(
        rt,
        &mut Flash {
            registers: *s,
            image: [ONES; WORDS],
        },
        host_alone(at),
    )?;
    view(rt, s, at / PAGE_BYTES)
}

fn set_default(rt: &impl Print, s: &mut Registers, rights: u8) -> io::Result<()> {
    let answer = Answered::from(settings::set_default(s, rights));
    println!(rt; "set default rights {rights}: {answer}")
}

// Page 0 is the default's, page 1 region 0's, page 2 region 1's, which holds page 1 too. A read names the first denied page.
fn by_region(rt: &impl Print, s: &Registers) -> io::Result<()> {
    let denied = [
        data(Kind::Read, 0x0000, 1024),
        data(Kind::Read, 0x0800, 512),
        data(Kind::Program, 0x0800, 1),
        data(Kind::PageErase, 0x0BFC, 0),
    ];
    cases(rt, s, &denied)?;
    host(rt, s, 0x0400)?;
    host(rt, s, 0x0800)
}

fn by_default(rt: &impl Print, s: &Registers) -> io::Result<()> {
    let denied = [
        data(Kind::Read, 0x0000, 1024),
        data(Kind::Program, 0x0C00, 1),
        data(Kind::PageErase, 0x4000, 0),
    ];
    cases(rt, s, &denied)?;
    host(rt, s, 0x0C00)
}

fn data_pages(rt: &impl Print, s: &Registers) -> io::Result<()> {
    let mut now = *s;
    set_region(rt, &mut now, 0, region(true, 1, 1, NO_RIGHT))?;
    set_region(rt, &mut now, 1, region(true, 1, 2, PROGRAM_RIGHT))?;
    by_region(rt, &now)?;
    set_default(rt, &mut now, NO_RIGHT)?;
    by_default(rt, &now)
}

// ---- information pages

// A page of bank 0 and type 0.
pub fn set_page(rt: &impl Print, s: &mut Registers, page: u32, on: bool) -> io::Result<()> {
    let setting = PageSetting {
        on,
        rights: ALL_RIGHTS,
    };
    let on = on_or_off(on);
    let answer = Answered::from(settings::set_info(s, 0, 0, page, setting));
    println!(rt; "set information page {page} {on}: {answer}")
}

pub fn provision_off(rt: &impl Print, s: &mut Registers) -> io::Result<()> {
    let inputs = Inputs {
        provision: false,
        locked: false,
    };
    let answer = Answered::from(inputs::set_inputs(s, inputs));
    println!(rt; "provision off: {answer}")
}

// Pages 1 and 2 are the seed pages: the seed lock is named whatever their settings say.
fn information_pages(rt: &impl Print, s: &Registers) -> io::Result<()> {
    let mut now = *s;
    let read = information(Kind::Read, 0, 0x0000, 768);
    let program = information(Kind::Program, 0, 0x0400, 1);
    provision_off(rt, &mut now)?;
    let erase_owner = information(Kind::PageErase, 0, 0x0800, 0);
    cases(rt, &now, &[read, program, erase_owner])?;
    set_page(rt, &mut now, 1, false)?;
    cases(rt, &now, &[program])?;
    set_page(rt, &mut now, 0, false)?;
    cases(
        rt,
        &now,
        &[read, information(Kind::PageErase, 0, 0x0000, 0)],
    )
}

// ---- bank erases

fn banks(rt: &impl Print, s: &Registers) -> io::Result<()> {
    let mut now = *s;
    let answer = Answered::from(settings::set_erase(&mut now, 0, false));
    println!(rt; "bank erase of bank 0 off: {answer}")?;
    let denied = [
        data(Kind::BankErase, 0x0000, 0),
        information(Kind::BankErase, 0, 0x0000, 0),
    ];
    cases(rt, &now, &denied)
}

pub fn deciders(rt: &impl Print, s: &Registers) -> io::Result<()> {
    data_pages(rt, s)?;
    information_pages(rt, s)?;
    banks(rt, s)
}
