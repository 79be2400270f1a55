// Where an operation's words may lie, and what a programmed word leaves.
use super::asked::{Kind, data, information};
use super::cases::cases;
use super::drive::{Flash, Way};
use super::given::{ONES, WORDS};
use super::told::Fetched;
use model::ByteAddress;
use registers::Registers;
use std::io;

// ---- windows of 64 bytes

pub fn windows(rt: &impl Print, s: &Registers) -> io::Result<()> {
    cases(
        rt,
        s,
        &[
            data(Kind::Program, 0x0000, 16),
            data(Kind::Program, 0x0000, 17),
            data(Kind::Program, 0x003C, 1),
            data(Kind::Program, 0x003C, 2),
        ],
    )
}

// ---- a word onto another

fn program(rt: &impl Print, flash: &mut Flash, way: Way, word: u32) -> io::Result<()> {
    let run = flash.run(way, data(Kind::Program, 0x0000, 1), word);
    let left = flash.run(way, data(Kind::Read, 0x0000, 1), 0).word;
    println!(rt; "0x{word:08x} programmed at 0x0000 {way}: {run}, leaves 0x{left:08x}")
}

pub fn words(rt: &impl Print, s: &Registers) -> io::Result<()> {
    for way in [Way::Steps, Way::Whole] {
        let mut flash = Flash {
            registers: *s,
            image: [ONES; WORDS],
        };
        program(rt, &mut flash, way, 0x1234_5678)?;
        program(rt, &mut flash, way, 0xFFFF_0000)?;
    }
    Ok(())
}

// ---- ends of the flash, alignment and n

pub fn host_read(rt: &impl Print, s: &Registers, at: u32) -> io::Result<()> {
    let image = [ONES; WORDS];
    let fetched = Fetched::from(host::host_read(s, &image, ByteAddress(at)));
    println!(rt; "host read at 0x{at:04x}: {fetched}")
}

// Address 2 is no bus word's.
fn unaligned(rt: &impl Print, s: &Registers) -> io::Result<()> {
    cases(
        rt,
        s,
        &[
            data(Kind::Read, 0x0002, 1),
            data(Kind::Program, 0x0002, 1),
            data(Kind::PageErase, 0x0002, 1),
            data(Kind::BankErase, 0x0002, 1),
        ],
    )?;
    host_read(rt, s, 0x0002)
}

pub fn ends(rt: &impl Print, s: &Registers) -> io::Result<()> {
    let last = [data(Kind::Read, 0x7FFC, 1), data(Kind::Read, 0x7FFC, 2)];
    let most = [
        data(Kind::Read, 0x0000, 1024),
        data(Kind::Read, 0x0000, 1025),
        data(Kind::Program, 0x0000, 1025),
    ];
    cases(rt, s, &last)?;
    host_read(rt, s, 0x7FFC)?;
    unaligned(rt, s)?;
    cases(rt, s, &most)
}

// ---- types: 1 has one page in a bank, 0 has ten

pub fn types(rt: &impl Print, s: &Registers) -> io::Result<()> {
    cases(
        rt,
        s,
        &[
            information(Kind::Read, 1, 0x0400, 1),
            information(Kind::Program, 1, 0x0400, 1),
            information(Kind::PageErase, 1, 0x0400, 1),
            information(Kind::Read, 0, 0x27FC, 1),
            information(Kind::Read, 0, 0x27FC, 2),
            information(Kind::Program, 0, 0x27FC, 1),
            information(Kind::Program, 0, 0x27FC, 2),
        ],
    )
}
