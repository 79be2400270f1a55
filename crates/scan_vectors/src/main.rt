// The scan queue through its calls (document 02, L11), one line a case. D = 10, all rights by default; pages 2 and 19 lie in
// different banks. Scans are 7, 8, 9 and so on, as many bytes as a line says.
#![tactic(auto)]

use model::ERASED;
use registers::Registers;
use scans::{ToldScan, ToldWrite};
use std::{fmt, io};

const PAGES: u32 = 10;

// Of the image of D = 10.
const WORDS: usize = 11776;

const ALL_RIGHTS: u8 = 7;

// More than any call makes.
const ALL_STEPS: u32 = 1000;

// Slot 0 of page 2.
const FIRST_SLOT: usize = 512;

const SCAN: [u8; 49] = [
    7, 8, 9, 10, 11, 12, 13, 14, 15, 16, 17, 18, 19, 20, 21, 22, 23, 24, 25, 26, 27, 28, 29, 30,
    31, 32, 33, 34, 35, 36, 37, 38, 39, 40, 41, 42, 43, 44, 45, 46, 47, 48, 49, 50, 51, 52, 53, 54,
    55,
];

// ---- what the calls tell

#[derive(Clone, Copy)]
struct Written {
    answer: u32,
    cut: u32,
}

impl From<ToldWrite> for Written {
    fn from(told: ToldWrite) -> Self {
        Written {
            answer: told.answer,
            cut: told.cut,
        }
    }
}

impl fmt::Display for Written {
    fn fmt<W: fmt::Write>(&self, f: &mut fmt::Formatter<W>) -> fmt::Result {
        write!(f, "{}, cut {}", self.answer, self.cut)
    }
}

#[derive(Clone, Copy)]
struct Taken {
    answer: u32,
    serial: u32,
    length: u32,
}

impl From<ToldScan> for Taken {
    fn from(told: ToldScan) -> Self {
        Taken {
            answer: told.answer,
            serial: told.serial,
            length: told.length,
        }
    }
}

impl fmt::Display for Taken {
    fn fmt<W: fmt::Write>(&self, f: &mut fmt::Formatter<W>) -> fmt::Result {
        write!(
            f,
            "{}, serial {}, length {}",
            self.answer, self.serial, self.length
        )
    }
}

// ---- the calls

// Made where it is used: handed back by value, it would lie on the stack twice.
#[derive(Clone, Copy)]
struct Flash {
    registers: Registers,
    image: [u32; WORDS],
}

impl Flash {
    fn power_on(&mut self, rt: &impl Print) -> io::Result<()> {
        let _ = lifecycle::reset(&mut self.registers, PAGES);
        let _ = settings::set_default(&mut self.registers, ALL_RIGHTS);
        let initialised = lifecycle::initialise(&mut self.registers, &self.image);
        let answer = refusals::number_of(initialised.map(|_| ()));
        println!(rt; "reset, all rights by default, initialise: {answer}")
    }

    fn write(
        &mut self,
        rt: &impl Print,
        a: u32,
        b: u32,
        bytes: &[u8],
        steps: u32,
    ) -> io::Result<()> {
        let s = &mut self.registers;
        let written = Written::from(scans::write(s, &mut self.image, a, b, bytes, steps));
        let length = bytes.len();
        println!(rt; "write, length {length}, to {a} and {b}: {written}")
    }

    fn take(&mut self, rt: &impl Print) -> io::Result<()> {
        let s = &mut self.registers;
        let taken = Taken::from(scans::take(s, &mut self.image, 2, 19, ALL_STEPS));
        println!(rt; "take from 2 and 19: {taken}")
    }

    fn first_slot(&self, rt: &impl Print) -> io::Result<()> {
        print!(rt; "words 0 to 3 of slot 0 of page 2:")?;
        for word in &self.image[FIRST_SLOT..FIRST_SLOT + 4] {
            print!(rt; " 0x{word:08x}")?;
        }
        println!(rt; "")
    }

    // ---- the cases

    // 19, 18 and 16, which comes before 18.
    fn refusals(&mut self, rt: &impl Print) -> io::Result<()> {
        self.take(rt)?;
        self.write(rt, 2, 19, &SCAN[..0], ALL_STEPS)?;
        self.write(rt, 2, 19, &SCAN, ALL_STEPS)?;
        self.write(rt, 2, 2, &SCAN[..0], ALL_STEPS)?;
        self.write(rt, 2, 20, &SCAN[..3], ALL_STEPS)
    }

    // A scan, and another one whose power goes before the seal. The next call is 4, before 16, until a reset.
    fn before_the_seal(&mut self, rt: &impl Print) -> io::Result<()> {
        self.write(rt, 19, 2, &SCAN[..3], ALL_STEPS)?;
        self.first_slot(rt)?;
        self.write(rt, 2, 19, &SCAN[..1], 14)?;
        self.write(rt, 2, 20, &SCAN[..3], ALL_STEPS)?;
        self.power_on(rt)?;
        self.take(rt)?;
        self.take(rt)
    }

    // Dead slots alone: the lower page is erased, and the power goes in the erase.
    fn in_the_erase(&mut self, rt: &impl Print) -> io::Result<()> {
        self.power_on(rt)?;
        self.write(rt, 2, 19, &SCAN[..1], 200)?;
        self.power_on(rt)?;
        self.take(rt)?;
        self.write(rt, 2, 19, &SCAN[..1], ALL_STEPS)?;
        self.first_slot(rt)?;
        self.take(rt)
    }
}

fn main(rt: HostRuntime) -> io::Result<()> {
    let mut flash = Flash {
        registers: [0; registers::COUNT],
        image: [ERASED; WORDS],
    };
    flash.power_on(&rt)?;
    flash.refusals(&rt)?;
    flash.before_the_seal(&rt)?;
    let mut dead = Flash {
        registers: [0; registers::COUNT],
        image: [0; WORDS],
    };
    dead.in_the_erase(&rt)
}
