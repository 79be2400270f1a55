// A small controller, D = 10, through the public calls: what each answers, one line a call.
#![tactic(auto)]

use calls::Step;
use model::{
    Answer, ByteAddress, ERASED, Operation, PAGE_WORDS, Page, PageSetting, Refusal, Region, Seeds,
};
use registers::Registers;
use std::{fmt, io};

// D, and the words of its image.
const PAGES: u32 = 10;

const WORDS: usize = 11776;

// ---- operations

#[derive(Clone, Copy)]
enum Kind {
    Read,
    Program,
    PageErase,
    Unknown(u8),
}

impl From<Kind> for u8 {
    fn from(kind: Kind) -> u8 {
        match kind {
            Kind::Read => 0,
            Kind::Program => 1,
            Kind::PageErase => 2,
            Kind::Unknown(number) => number,
        }
    }
}

fn data(kind: Kind, address: u32, count: u32) -> Operation {
    Operation {
        kind: u8::from(kind),
        partition: 0,
        info: 0,
        address: ByteAddress(address),
        count,
    }
}

// ---- what the calls answer

// An answer's number, and who decided, where it is 9.
#[derive(Clone, Copy)]
struct Answered(Answer);

impl From<Answer> for Answered {
    fn from(answer: Answer) -> Self {
        Answered(answer)
    }
}

impl From<Result<Option<Seeds>, Refusal>> for Answered {
    fn from(initialised: Result<Option<Seeds>, Refusal>) -> Self {
        Answered(initialised.map(|_| ()))
    }
}

impl fmt::Display for Answered {
    fn fmt<W: fmt::Write>(&self, f: &mut fmt::Formatter<W>) -> fmt::Result {
        write!(f, "{}", refusals::number_of(self.0))?;
        match self.0 {
            Err(Refusal::Denied(by)) => write!(f, " by {}", refusals::decider_number(by)),
            _ => Ok(()),
        }
    }
}

// Of a pop, and of a host read.
#[derive(Clone, Copy)]
struct Fetched(Result<u32, Refusal>);

impl From<Result<u32, Refusal>> for Fetched {
    fn from(fetched: Result<u32, Refusal>) -> Self {
        Fetched(fetched)
    }
}

impl fmt::Display for Fetched {
    fn fmt<W: fmt::Write>(&self, f: &mut fmt::Formatter<W>) -> fmt::Result {
        let answer = Answered(self.0.map(|_| ()));
        write!(f, "{answer} 0x{:08x}", self.0.unwrap_or(0))
    }
}

#[derive(Clone, Copy)]
struct Stepped {
    answer: Answered,
    bits: u32,
}

impl From<Result<Step, Refusal>> for Stepped {
    fn from(stepped: Result<Step, Refusal>) -> Self {
        Stepped {
            answer: Answered(stepped.map(|_| ())),
            bits: stepped.map_or(0, |step| step.bits),
        }
    }
}

impl fmt::Display for Stepped {
    fn fmt<W: fmt::Write>(&self, f: &mut fmt::Formatter<W>) -> fmt::Result {
        write!(f, "{} {} bits", self.answer, self.bits)
    }
}

// ---- the walk

#[derive(Clone, Copy)]
struct Flash {
    registers: Registers,
    image: [u32; WORDS],
}

impl Flash {
    fn start(&mut self, rt: &impl Print, name: &str, o: Operation) -> io::Result<()> {
        let answer = Answered::from(operations::start(&mut self.registers, o));
        println!(rt; "start {name} {answer}")
    }

    fn push(&mut self, rt: &impl Print, word: u32) -> io::Result<()> {
        let answer = Answered::from(queueing::push(&mut self.registers, word));
        println!(rt; "push {answer}")
    }

    fn pop(&mut self, rt: &impl Print) -> io::Result<()> {
        let fetched = Fetched::from(queueing::pop(&mut self.registers));
        println!(rt; "pop {fetched}")
    }

    fn host_read(&self, rt: &impl Print, address: u32) -> io::Result<()> {
        let at = ByteAddress(address);
        let fetched = Fetched::from(host::host_read(&self.registers, &self.image, at));
        println!(rt; "host read {fetched}")
    }

    fn step(&mut self) -> Stepped {
        Stepped::from(steps::step(&mut self.registers, &mut self.image))
    }

    fn two_steps(&mut self, rt: &impl Print) -> io::Result<()> {
        for _ in 0..2 {
            let stepped = self.step();
            println!(rt; "step {stepped}")?;
        }
        Ok(())
    }

    fn reset(&mut self, rt: &impl Print, name: &str, pages: u32) -> io::Result<()> {
        let answer = Answered::from(lifecycle::reset(&mut self.registers, pages));
        println!(rt; "{name} {answer}")
    }

    // Rights for pages 0 to 3 only, and to read an information page.
    fn set_rights(&mut self, rt: &impl Print) -> io::Result<()> {
        let pages = Region {
            on: true,
            first: Page(0),
            count: 4,
            rights: 7,
        };
        let answer = Answered::from(settings::set_region(&mut self.registers, 0, pages));
        println!(rt; "set region {answer}")?;
        let page = PageSetting {
            on: true,
            rights: 1,
        };
        let answer = Answered::from(settings::set_info(&mut self.registers, 1, 2, 1, page));
        println!(rt; "set information page {answer}")
    }

    fn make(&mut self, rt: &impl Print) -> io::Result<()> {
        self.reset(rt, "reset", PAGES)?;
        self.set_rights(rt)?;
        let answer = Answered::from(lifecycle::initialise(&mut self.registers, &self.image));
        println!(rt; "initialise {answer}")
    }

    // Two words are programmed at the end of page 0's first window.
    fn program(&mut self, rt: &impl Print) -> io::Result<()> {
        self.start(rt, "program", data(Kind::Program, 0x38, 2))?;
        for word in [0x1234_5678, 0xFFFF_0000, 0] {
            self.push(rt, word)?;
        }
        self.two_steps(rt)
    }

    // They are read back, and read by the host.
    fn read(&mut self, rt: &impl Print) -> io::Result<()> {
        self.start(rt, "read", data(Kind::Read, 0x38, 2))?;
        self.two_steps(rt)?;
        for _ in 0..3 {
            self.pop(rt)?;
        }
        self.host_read(rt, 0x38)
    }

    // The words that were programmed are erased with their page: one step for each word.
    fn erase(&mut self, rt: &impl Print) -> io::Result<()> {
        self.start(rt, "page erase", data(Kind::PageErase, 0x3FC, 0))?;
        let mut bits = 0u32;
        for _ in 0..PAGE_WORDS {
            bits = bits.wrapping_add(self.step().bits);
        }
        println!(rt; "{PAGE_WORDS} steps {bits} bits")
    }

    // Page 4 has no rights, and there is no kind 9.
    fn refused(&mut self, rt: &impl Print) -> io::Result<()> {
        self.start(rt, "program on page 4", data(Kind::Program, 0x1000, 1))?;
        self.start(rt, "kind 9", data(Kind::Unknown(9), 0, 1))
    }

    fn rma(&mut self, rt: &impl Print) -> io::Result<()> {
        let answer = Answered::from(lifecycle::rma(&mut self.registers, &mut self.image));
        println!(rt; "RMA {answer}")
    }
}

fn main(rt: HostRuntime) -> io::Result<()> {
    let mut flash = Flash {
        registers: [0; registers::COUNT],
        image: [ERASED; WORDS],
    };
    flash.make(&rt)?;
    flash.program(&rt)?;
    flash.read(&rt)?;
    flash.erase(&rt)?;
    flash.refused(&rt)?;
    flash.rma(&rt)?;
    flash.start(&rt, "read", data(Kind::Read, 0, 1))?;
    flash.reset(&rt, "reset with 257 pages", 257)
}
