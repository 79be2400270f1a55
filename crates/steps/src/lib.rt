// Step on registers: one word of the operation in progress moves.
#![tactic(auto)]

ghost use Rattle.std.specs.Prelude.{◌≡◌, ◌+◌, ◌<◌};
ghost use Rattle.model.specs.State.{flash};
ghost use Rattle.model.specs.Steps.{stalls, advance};
ghost use Rattle.registers.specs.Registers.{stands_for};
ghost use Rattle.calls.specs.Calls.{told_step, step_left, step_in};
ghost use Rattle.validity.specs.Ready.{Ready};
ghost use Rattle.steps.specs.Stepping.{Moves, told_moved, registers_moved};

use calls::Step;
use model::{Movement, Operation, QUEUE_WORDS, Refusal, Work};
use registers::Registers;

// Word `k` of `n` has moved: what is now in progress.
fn moved(s: &mut Registers, n: usize, k: u32, bits: u32) -> Step
    requires { k + 1 < 4294967296 }
    ensures told { told_step (Ok result) ≡ told_moved n k bits }
    ensures left { s.new ≡ registers_moved s.old n k }
{
    if k as usize + 1 == n {
        registers::no_progress(s);
        return Step {
            movement: Movement::Finished,
            bits,
        };
    }
    registers::put_moved(s, k + 1);
    Step {
        movement: Movement::Moved,
        bits,
    }
}

// Whether a step would wait.
pub fn stalls(s: &Registers, w: Work) -> bool
    ensures { result ≡ stalls (stands_for s.now).queues w }
{
    match w {
        Work::Read { .. } => QUEUE_WORDS <= registers::read_count(s),
        Work::Program { .. } => registers::program_count(s) == 0,
        Work::Erase { .. } => false,
    }
}

// Of a read, the next word goes to the read queue.
fn advance_read(s: &mut Registers, image: &[u32], op: Operation, k: u32, readable: u32) -> Step
    requires { Moves s.old (flash image.now) (Work.Read op k readable) }
    ensures { record { told = told_step (Ok result); registers = s.new; flash = flash image.now } ≡ step_left s.old (advance (stands_for s.old) (flash image.now) (Work.Read op k readable)) }
{
    let d = registers::pages(s);
    let n = places::total_words(d, op);
    let place = places::place_of(d, op, k);
    let word = words::read_word(image, place, k, readable);
    let reads = registers::reads(s);
    registers::put_reads(s, queue::push(reads, word));
    moved(s, n, k, 0)
}

// Of a program, the oldest queued word is combined with the stored one.
fn advance_program(s: &mut Registers, image: &mut [u32], op: Operation, k: u32) -> Step
    requires { Moves s.old (flash image.old) (Work.Program op k) }
    ensures { record { told = told_step (Ok result); registers = s.new; flash = flash image.new } ≡ step_left s.old (advance (stands_for s.old) (flash image.old) (Work.Program op k)) }
{
    let d = registers::pages(s);
    let n = places::total_words(d, op);
    let place = places::place_of(d, op, k);
    let programs = registers::programs(s);
    let word = queue::oldest(programs);
    let bits = words::program_word(image, place, word);
    registers::put_programs(s, queue::pop(programs));
    moved(s, n, k, bits)
}

// Of an erase, the stored word becomes all ones.
fn advance_erase(s: &mut Registers, image: &mut [u32], op: Operation, k: u32) -> Step
    requires { Moves s.old (flash image.old) (Work.Erase op k) }
    ensures { record { told = told_step (Ok result); registers = s.new; flash = flash image.new } ≡ step_left s.old (advance (stands_for s.old) (flash image.old) (Work.Erase op k)) }
{
    let d = registers::pages(s);
    let n = places::total_words(d, op);
    let place = places::place_of(d, op, k);
    let changed = words::erase_word(image, place);
    moved(s, n, k, changed)
}

// One word moves, at the operation's next place.
fn advance(s: &mut Registers, image: &mut [u32], w: Work) -> Step
    requires { Moves s.old (flash image.old) w }
    ensures { record { told = told_step (Ok result); registers = s.new; flash = flash image.new } ≡ step_left s.old (advance (stands_for s.old) (flash image.old) w) }
{
    match w {
        Work::Read {
            op,
            moved,
            readable,
        } => advance_read(s, image, op, moved, readable),
        Work::Program { op, moved } => advance_program(s, image, op, moved),
        Work::Erase { op, moved } => advance_erase(s, image, op, moved),
    }
}

// A step of a state that has passed checks 1 to 3: check 12.
#[tactic(auto, using(crate::proofs::Left::step_nothing, crate::proofs::Left::step_waits, crate::proofs::Left::step_moves, crate::proofs::Left::step_goes))]
pub fn ready_step(s: &mut Registers, image: &mut [u32]) -> Result<Step, Refusal>
    requires { Ready s.old (flash image.old) }
    ensures { record { told = told_step result; registers = s.new; flash = flash image.new } ≡ step_in s.old (flash image.old) }
{
    let Some(work) = registers::progress(s) else {
        return Err(Refusal::Unexpected);
    };
    if stalls(s, work) {
        return Ok(Step {
            movement: Movement::Stalled,
            bits: 0,
        });
    }
    Ok(advance(s, image, work))
}

// Checks 1, 2, 3 and 12.
#[tactic(auto, using(crate::proofs::Left::step_early))]
pub fn step(s: &mut Registers, image: &mut [u32]) -> Result<Step, Refusal>
    ensures { record { told = told_step result; registers = s.new; flash = flash image.new } ≡ step_in s.old (flash image.old) }
{
    validity::ready_with(s, image)?;
    ready_step(s, image)
}
