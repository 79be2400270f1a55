// One case: an operation by steps, and the same as a whole, each from its own copy of the state.
use super::asked::Asked;
use super::drive::{Flash, Run};
use super::given::{ONES, WORDS};
use registers::Registers;
use std::io;

// By steps on the one, and as a whole operation on the other.
pub fn case_on(rt: &impl Print, flash: &mut Flash, again: &mut Flash, o: Asked) -> io::Result<()> {
    let Run {
        answer,
        steps,
        bits,
        ..
    } = flash.by_steps(o, 0);
    let whole = again.as_a_whole(o, 0);
    println!(rt; "{o}: {answer}, {steps} steps, {bits} bits; whole {whole}")
}

pub fn case(rt: &impl Print, s: &Registers, o: Asked) -> io::Result<()> {
    let mut flash = Flash {
        registers: *s,
        image: [ONES; WORDS],
    };
    let mut again = flash;
    case_on(rt, &mut flash, &mut again, o)
}

pub fn cases(rt: &impl Print, s: &Registers, operations: &[Asked]) -> io::Result<()> {
    for o in operations {
        case(rt, s, *o)?;
    }
    Ok(())
}
