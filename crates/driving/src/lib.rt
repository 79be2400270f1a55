// A whole operation by its public calls, for at most so many steps: where they do not reach, the power is cut and the operation
// stays in progress. specs/Drives.antt says what is left.
#![tactic(auto)]

ghost use Rattle.std.specs.Prelude.{◌≡◌, ◌+◌, ◌≤◌, ◌<◌, min, length};
ghost use Rattle.model.specs.State.{flash};
ghost use Rattle.model.specs.Refusals.{number_of, reported};
ghost use Rattle.driving.specs.Drives.{stepped_bits, stepped_in, with_pushed_in, with_popped_in, turn_in, turns_in, Room, starts_by, driven_in};

use calls::{ToldAnswer, ToldStep, ToldWord};
use model::{Answer, Operation, Refusal};
use registers::Registers;

// What is told: the answer and who decided, the bits changed, the steps left, and whether the power was cut.
#[repr(C)]
#[derive(Clone, Copy)]
pub struct Driven {
    pub answer: u32,
    pub decider: u32,
    pub bits: u32,
    pub left: u32,
    pub cut: u32,
}

// A step, after which so many bits have changed in all.
fn stepped(s: &mut Registers, image: &mut [u32], bits: u32) -> u32
    requires { bits + 32 < 4294967296 }
    ensures { (record { registers = s.new; flash = flash image.new; bits = result } ≡ stepped_bits s.old (flash image.old) bits) × (result ≤ bits + 32) }
{
    let stepped = steps::step(s, image);
    bits + ToldStep::from(stepped).bits
}

// The calls for word `k`: of a read step and pop,
fn read_turn(s: &mut Registers, image: &mut [u32], buffer: &mut [u32], k: usize, bits: u32) -> u32
    requires { (k < length buffer.old) × (bits + 32 < 4294967296) }
    ensures { (record { registers = s.new; flash = flash image.new; buffer = buffer.new; bits = result } ≡ with_popped_in k (stepped_in (record { registers = s.old; flash = flash image.old; buffer = buffer.old; bits = bits }))) × (result ≤ bits + 32) }
{
    let sum = stepped(s, image, bits);
    let popped = queueing::pop(s);
    buffer[k] = ToldWord::from(popped).word;
    sum
}

// of a program push and step,
fn program_turn(s: &mut Registers, image: &mut [u32], buffer: &[u32], k: usize, bits: u32) -> u32
    requires { (k < length buffer.now) × (bits + 32 < 4294967296) }
    ensures { (record { registers = s.new; flash = flash image.new; buffer = buffer.now; bits = result } ≡ stepped_in (with_pushed_in k (record { registers = s.old; flash = flash image.old; buffer = buffer.now; bits = bits }))) × (result ≤ bits + 32) }
{
    let word = buffer[k];
    let _ = queueing::push(s, word);
    stepped(s, image, bits)
}

// of an erase step.
fn turn(
    s: &mut Registers,
    image: &mut [u32],
    o: Operation,
    buffer: &mut [u32],
    k: usize,
    bits: u32,
) -> u32
    requires { Room o (k + 1) buffer.old × (bits + 32 < 4294967296) }
    ensures { (record { registers = s.new; flash = flash image.new; buffer = buffer.new; bits = result } ≡ turn_in o k (record { registers = s.old; flash = flash image.old; buffer = buffer.old; bits = bits })) × (result ≤ bits + 32) }
{
    if places::is_read(o) {
        return read_turn(s, image, buffer, k, bits);
    }
    if places::is_program(o) {
        return program_turn(s, image, buffer, k, bits);
    }
    stepped(s, image, bits)
}

// The calls for the first `n` words. The answer is the number of bits changed.
fn turns(s: &mut Registers, image: &mut [u32], o: Operation, buffer: &mut [u32], n: u32) -> u32
    requires { Room o n buffer.old × (n ≤ 131072) }
    ensures { record { registers = s.new; flash = flash image.new; buffer = buffer.new; bits = result } ≡ turns_in o n (record { registers = s.old; flash = flash image.old; buffer = buffer.old; bits = 0 }) }
{
    let mut bits: u32 = 0;
    for k in 0..n {
        bits = turn(s, image, o, buffer, k as usize, bits);
    }
    bits
}

// An accepted operation starts, and so does a denied read.
fn starts(o: Operation, answer: Answer) -> bool
    ensures { result ≡ starts_by o (number_of answer) }
{
    let read = places::is_read(o);
    let number = refusals::number_of(answer);
    let accepted = number == 0;
    let denied = number == 9;
    accepted | (read & denied)
}

fn unmoved(answer: Answer, steps: u32) -> Driven
    ensures { result ≡ record { answer = number_of answer; decider = reported answer; bits = 0; left = steps; cut = 0 } }
{
    let told = ToldAnswer::from(answer);
    Driven {
        answer: told.answer,
        decider: told.decider,
        bits: 0,
        left: steps,
        cut: 0,
    }
}

// A caller that wants the whole operation gives a step for each of its words, or the largest number.
pub fn drive(
    s: &mut Registers,
    image: &mut [u32],
    o: Operation,
    buffer: &mut [u32],
    steps: u32,
) -> Driven
    ensures { record { told = result; registers = s.new; flash = flash image.new; buffer = buffer.new } ≡ driven_in steps s.old (flash image.old) o buffer.old }
{
    let first = whole::whole_answer(s, image);
    if !refusals::accepts(first) {
        return unmoved(first, steps);
    }
    if whole::short_buffer(o, buffer) {
        return unmoved(Err(Refusal::ShortBuffer), steps);
    }
    let d = registers::pages(s);
    let answer = operations::start(s, o);
    if !starts(o, answer) {
        return unmoved(answer, steps);
    }
    let told = ToldAnswer::from(answer);
    let total = places::total_words(d, o) as u32;
    let n = steps.min(total);
    let bits = turns(s, image, o, buffer, n);
    Driven {
        answer: told.answer,
        decider: told.decider,
        bits,
        left: steps - n,
        cut: registers::flag_of(steps < total),
    }
}
