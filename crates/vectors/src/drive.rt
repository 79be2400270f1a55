// Registers and an image, and operations run to their ends on them, by steps or as a whole.
use super::asked::Asked;
use super::given::{ONES, WORDS};
use super::told::{Answered, Completed, Stepped};
use model::Operation;
use registers::Registers;
use std::fmt;

// More steps than the largest operation of D = 16 has words, 7,424.
const BUDGET: usize = 8000;

// More words than an operation may have, 1,024, so check 6 cannot answer.
pub const BUFFER: usize = 1025;

#[derive(Clone, Copy)]
pub enum Way {
    Steps,
    Whole,
}

impl fmt::Display for Way {
    fn fmt<W: fmt::Write>(&self, f: &mut fmt::Formatter<W>) -> fmt::Result {
        match self {
            Way::Steps => write!(f, "by steps"),
            Way::Whole => write!(f, "as a whole"),
        }
    }
}

// `word` is the last one popped, or the first of a whole operation's buffer; `steps` counts those that moved a word.
#[derive(Clone, Copy)]
pub struct Run {
    pub answer: Answered,
    pub steps: u64,
    pub bits: u64,
    pub word: u32,
}

impl fmt::Display for Run {
    fn fmt<W: fmt::Write>(&self, f: &mut fmt::Formatter<W>) -> fmt::Result {
        write!(f, "{}, {} bits", self.answer, self.bits)
    }
}

pub fn start(s: &mut Registers, o: Asked) -> Answered {
    Answered::from(operations::start(s, Operation::from(o)))
}

// Made where it is used: handed back by value, it would lie on the stack twice.
#[derive(Clone, Copy)]
pub struct Flash {
    pub registers: Registers,
    pub image: [u32; WORDS],
}

impl Flash {
    pub fn start(&mut self, o: Asked) -> Answered {
        start(&mut self.registers, o)
    }

    pub fn step(&mut self) -> Stepped {
        Stepped::from(steps::step(&mut self.registers, &mut self.image))
    }

    pub fn pop(&mut self) -> Option<u32> {
        queueing::pop(&mut self.registers).ok()
    }

    pub fn whole(&mut self, o: Asked, buffer: &mut [u32]) -> Completed {
        let o = Operation::from(o);
        Completed::from(whole::run(&mut self.registers, &mut self.image, o, buffer))
    }

    // Push, step, pop. Only a program takes the push, and only a read has a word to pop.
    fn turn(&mut self, word: u32, run: &mut Run) {
        let _ = queueing::push(&mut self.registers, word);
        let stepped = self.step();
        if stepped.moves() {
            run.steps = run.steps.wrapping_add(1);
        }
        run.bits = run.bits.wrapping_add(u64::from(stepped.bits()));
        if let Some(popped) = self.pop() {
            run.word = popped;
        }
    }

    // Steps past the last word are refused, and move and count nothing.
    pub fn by_steps(&mut self, o: Asked, word: u32) -> Run {
        let mut run = Run {
            answer: self.start(o),
            steps: 0,
            bits: 0,
            word: 0,
        };
        for _ in 0..BUDGET {
            self.turn(word, &mut run);
        }
        run
    }

    pub fn as_a_whole(&mut self, o: Asked, word: u32) -> Run {
        let mut buffer = [word; BUFFER];
        let done = self.whole(o, &mut buffer);
        Run {
            answer: done.answer,
            steps: 0,
            bits: u64::from(done.bits),
            word: buffer[0],
        }
    }

    pub fn run(&mut self, way: Way, o: Asked, word: u32) -> Run {
        match way {
            Way::Steps => self.by_steps(o, word),
            Way::Whole => self.as_a_whole(o, word),
        }
    }

    pub fn first_with_zeros(&self) -> usize {
        self.image.iter().position(|w| *w != ONES).unwrap_or(WORDS)
    }
}
