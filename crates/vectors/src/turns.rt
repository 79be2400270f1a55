// Turns of host and step (document 02, L1).
use super::asked::{Asked, Kind, data};
use super::drive::Flash;
use super::given::{ONES, WORDS};
use super::told::Round;
use model::ByteAddress;
use registers::Registers;
use std::{fmt, io};

// ---- rounds

// Who asks in a round: the host, for the word at an address, and the step.
#[derive(Clone, Copy)]
pub struct Askers {
    host: Option<u32>,
    step: bool,
}

const STEP_ALONE: Askers = Askers {
    host: None,
    step: true,
};

const NOBODY: Askers = Askers {
    host: None,
    step: false,
};

fn both(at: u32) -> Askers {
    Askers {
        host: Some(at),
        step: true,
    }
}

pub fn host_alone(at: u32) -> Askers {
    Askers {
        host: Some(at),
        step: false,
    }
}

impl fmt::Display for Askers {
    fn fmt<W: fmt::Write>(&self, f: &mut fmt::Formatter<W>) -> fmt::Result {
        match (self.host, self.step) {
            (Some(at), true) => write!(f, "host at 0x{at:04x} and step"),
            (Some(at), false) => write!(f, "host at 0x{at:04x}"),
            (None, true) => write!(f, "step"),
            (None, false) => write!(f, "nobody"),
        }
    }
}

pub fn round(rt: &impl Print, flash: &mut Flash, askers: Askers) -> io::Result<()> {
    let request = askers.host.map(ByteAddress);
    let s = &mut flash.registers;
    let told = Round::from(rounds::round(s, &mut flash.image, request, askers.step));
    let bank_0 = registers::lost(&flash.registers, 0);
    let bank_1 = registers::lost(&flash.registers, 1);
    println!(rt; "round of {askers}: {told}; lost {bank_0} and {bank_1}")
}

fn rounds(rt: &impl Print, flash: &mut Flash, asked: &[Askers]) -> io::Result<()> {
    for askers in asked {
        round(rt, flash, *askers)?;
    }
    Ok(())
}

fn start(rt: &impl Print, flash: &mut Flash, o: Asked) -> io::Result<()> {
    let answer = flash.start(o);
    println!(rt; "{o} started: {answer}")
}

// ---- a host that polls the bank in which a page is erased

// The step is served in the sixth round.
fn until_served(rt: &impl Print, flash: &mut Flash) -> io::Result<()> {
    rounds(rt, flash, &[both(0x0000); 6])
}

// A refused host read uses its turn, and a lone turn leaves the count.
fn until_5(rt: &impl Print, flash: &mut Flash) -> io::Result<()> {
    let asked = [
        both(0x0000),
        both(0x0002),
        host_alone(0x0000),
        both(0x0000),
        both(0x0000),
        both(0x0000),
    ];
    rounds(rt, flash, &asked)
}

// So does one in the other bank, also past the end; then the step goes before a host read that would be refused.
fn at_5(rt: &impl Print, flash: &mut Flash) -> io::Result<()> {
    let asked = [
        STEP_ALONE,
        host_alone(0x0000),
        both(0x4000),
        both(0x8000),
        both(0x0002),
    ];
    rounds(rt, flash, &asked)
}

fn polled(rt: &impl Print, s: &Registers) -> io::Result<()> {
    let mut erasing = Flash {
        registers: *s,
        image: [ONES; WORDS],
    };
    let _ = erasing.as_a_whole(data(Kind::Program, 0x0000, 1), 0x1234_5678);
    start(rt, &mut erasing, data(Kind::PageErase, 0x0000, 0))?;
    until_served(rt, &mut erasing)?;
    until_5(rt, &mut erasing)?;
    at_5(rt, &mut erasing)
}

// ---- who competes

// An address past the end counts as bank 1.
fn past_the_end(rt: &impl Print, s: &Registers) -> io::Result<()> {
    let mut erasing = Flash {
        registers: *s,
        image: [ONES; WORDS],
    };
    start(rt, &mut erasing, data(Kind::PageErase, 0x4000, 0))?;
    round(rt, &mut erasing, both(0x8000))
}

// A step that would wait or be refused does not compete.
fn no_contest(rt: &impl Print, s: &Registers) -> io::Result<()> {
    let mut flash = Flash {
        registers: *s,
        image: [ONES; WORDS],
    };
    start(rt, &mut flash, data(Kind::Program, 0x0000, 1))?;
    round(rt, &mut flash, both(0x0000))?;
    flash.registers = *s;
    println!(rt; "nothing in progress")?;
    rounds(rt, &mut flash, &[both(0x0000), NOBODY])
}

pub fn turns(rt: &impl Print, s: &Registers) -> io::Result<()> {
    polled(rt, s)?;
    past_the_end(rt, s)?;
    no_contest(rt, s)
}
