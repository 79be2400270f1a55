// Bank erases of an image that has zeros, and page erases of blank pages.
use super::asked::{Asked, Kind, data, information};
use super::cases::{case_on, cases};
use super::drive::Flash;
use super::given::{ONES, WORDS};
use registers::Registers;
use std::io;

// Each word is programmed: the bits that they change.
fn program(
    rt: &impl Print,
    flash: &mut Flash,
    place: &str,
    words: &[(Asked, u32)],
) -> io::Result<()> {
    let mut bits = 0u64;
    for &(o, word) in words {
        bits = bits.wrapping_add(flash.as_a_whole(o, word).bits);
    }
    println!(rt; "zeros programmed into {place}: {bits} bits")
}

// The first and the last data word of bank 0; the first word of the creator page, and the last information word of bank 0.
fn zeros(rt: &impl Print, flash: &mut Flash) -> io::Result<()> {
    let in_data = [
        (data(Kind::Program, 0x0000, 1), 0x1234_5678),
        (data(Kind::Program, 0x3FFC, 1), 0),
    ];
    let in_information = [
        (information(Kind::Program, 0, 0x0400, 1), 0xFFFF_0000),
        (information(Kind::Program, 2, 0x07FC, 1), 0),
    ];
    let in_bank_1 = [(data(Kind::Program, 0x4000, 1), 0)];
    program(rt, flash, "the data pages of bank 0", &in_data)?;
    program(
        rt,
        flash,
        "the information pages of bank 0",
        &in_information,
    )?;
    program(rt, flash, "bank 1", &in_bank_1)
}

// What is left tells which words the erase covered.
fn bank_erase(rt: &impl Print, flash: &Flash, o: Asked) -> io::Result<()> {
    let mut stepped = *flash;
    let mut whole = *flash;
    case_on(rt, &mut stepped, &mut whole, o)?;
    let by_steps = stepped.first_with_zeros();
    let as_a_whole = whole.first_with_zeros();
    println!(rt; "first bus word that has zeros: {by_steps} by steps, {as_a_whole} as a whole")
}

pub fn erases(rt: &impl Print, s: &Registers) -> io::Result<()> {
    let mut flash = Flash {
        registers: *s,
        image: [ONES; WORDS],
    };
    zeros(rt, &mut flash)?;
    bank_erase(rt, &flash, data(Kind::BankErase, 0x0000, 0))?;
    bank_erase(rt, &flash, information(Kind::BankErase, 0, 0x0000, 0))?;
    let blank = [
        data(Kind::PageErase, 0x0000, 0),
        information(Kind::PageErase, 0, 0x0000, 0),
    ];
    cases(rt, s, &blank)
}
