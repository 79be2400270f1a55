// Denied reads: true up to the first denied page, and then ones (document 02, L3).
use super::asked::{Asked, Kind, data, information};
use super::deciders::{provision_off, set_page};
use super::drive::{BUFFER, Flash, Way};
use super::given::{NO_RIGHT, ONES, PROGRAM_RIGHT, WORDS};
use super::page_rights::{region, set_region};
use super::told::Answered;
use registers::Registers;
use std::io;

// What the buffer holds before the read; the image is all zeros.
const KEPT: u32 = 0x5A5A_5A5A;

// How many of the first words are `word`, and the words after them.
fn split_run(words: &[u32], word: u32) -> (usize, &[u32]) {
    let end = words.iter().position(|w| *w != word).unwrap_or(words.len());
    (end, &words[end..])
}

// By steps each word is popped as it comes; past the last one there is none.
fn read_into(flash: &mut Flash, way: Way, o: Asked, buffer: &mut [u32]) -> Answered {
    match way {
        Way::Steps => {
            let answer = flash.start(o);
            for place in buffer.iter_mut() {
                let _ = flash.step();
                if let Some(word) = flash.pop() {
                    *place = word;
                }
            }
            answer
        }
        Way::Whole => flash.whole(o, buffer).answer,
    }
}

// The stored words, the ones and the places that stayed, in this order.
fn read_line(rt: &impl Print, s: &Registers, way: Way, o: Asked) -> io::Result<()> {
    let mut flash = Flash {
        registers: *s,
        image: [0; WORDS],
    };
    let mut buffer = [KEPT; BUFFER];
    let answer = read_into(&mut flash, way, o, &mut buffer);
    let (stored, rest) = split_run(&buffer, 0);
    let (ones, rest) = split_run(rest, ONES);
    let (kept, _) = split_run(rest, KEPT);
    let last = registers::errors(&flash.registers).address.0;
    print!(rt; "{o} {way}: {answer}, {stored} stored, {ones} ones, {kept} kept, ")?;
    println!(rt; "last address 0x{last:04x}")
}

fn reads(rt: &impl Print, s: &Registers, operations: &[Asked]) -> io::Result<()> {
    for o in operations {
        read_line(rt, s, Way::Steps, *o)?;
        read_line(rt, s, Way::Whole, *o)?;
    }
    Ok(())
}

// Pages 1 and 2 may not be read, and page 3 may: it comes after them.
fn data_pages(rt: &impl Print, s: &Registers) -> io::Result<()> {
    let mut now = *s;
    set_region(rt, &mut now, 0, region(true, 1, 2, PROGRAM_RIGHT))?;
    let operations = [
        data(Kind::Read, 0x0000, 1024),
        data(Kind::Read, 0x03FC, 2),
        data(Kind::Read, 0x0BFC, 257),
        data(Kind::Read, 0x0C00, 256),
    ];
    reads(rt, &now, &operations)
}

// The first page of bank 1 may not be read, and then the last of bank 0.
fn border(rt: &impl Print, s: &Registers) -> io::Result<()> {
    let mut now = *s;
    set_region(rt, &mut now, 0, region(true, 16, 1, NO_RIGHT))?;
    reads(rt, &now, &[data(Kind::Read, 0x3800, 768)])?;
    set_region(rt, &mut now, 0, region(true, 15, 1, NO_RIGHT))?;
    reads(rt, &now, &[data(Kind::Read, 0x3BFC, 258)])
}

// Page 3 is off; with provision off pages 1 and 2, the seed pages, are closed.
fn information_pages(rt: &impl Print, s: &Registers) -> io::Result<()> {
    let mut now = *s;
    set_page(rt, &mut now, 3, false)?;
    reads(rt, &now, &[information(Kind::Read, 0, 0x0800, 768)])?;
    provision_off(rt, &mut now)?;
    reads(rt, &now, &[information(Kind::Read, 0, 0x03F0, 260)])
}

pub fn denied_reads(rt: &impl Print, s: &Registers) -> io::Result<()> {
    data_pages(rt, s)?;
    border(rt, s)?;
    information_pages(rt, s)
}
