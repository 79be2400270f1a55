// Push and pop: an operation's words go in and out through the queues, on registers.
#![tactic(auto)]

ghost use Rattle.std.specs.Prelude.{◌≡◌, ◌+◌, leb};
ghost use Rattle.model.specs.Refusals.{number_of};
ghost use Rattle.calls.specs.Calls.{told_word, push_in, pop_in};

use model::{Answer, Refusal, Work};
use registers::Registers;

// ---- push

// All n words of a program have been pushed: they have moved, or are queued.
fn pushed_all(count: u32, moved: u32, queued: u32) -> bool
    ensures { result ≡ leb count (moved + queued) }
{
    count as usize <= moved as usize + queued as usize
}

// Checks 1, 2, 3, 12 and 11.
#[tactic(auto, using(crate::proofs::Pushed::push_early, crate::proofs::Pushed::push_idle, crate::proofs::Pushed::push_other, crate::proofs::Pushed::push_all, crate::proofs::Pushed::push_full, crate::proofs::Pushed::push_joins))]
pub fn push(s: &mut Registers, word: u32) -> Answer
    ensures { record { told = number_of result; registers = s.new } ≡ push_in s.old word }
{
    validity::ready(s)?;
    let Some(Work::Program { op, moved }) = registers::progress(s) else {
        return Err(Refusal::Unexpected);
    };
    let programs = registers::programs(s);
    refusals::check(
        pushed_all(op.count, moved, programs.len),
        Err(Refusal::Unexpected),
    )?;
    refusals::check(queue::is_full(programs), Err(Refusal::QueueFull))?;
    registers::put_programs(s, queue::push(programs, word));
    Ok(())
}

// ---- pop

// Checks 1 and 10.
#[tactic(auto, using(crate::proofs::Popped::pop_invalid, crate::proofs::Popped::pop_none, crate::proofs::Popped::pop_takes, crate::proofs::Popped::reads_some))]
pub fn pop(s: &mut Registers) -> Result<u32, Refusal>
    ensures { record { told = told_word result; registers = s.new } ≡ pop_in s.old }
{
    refusals::check(!validity::valid(s), Err(Refusal::Invalid))?;
    refusals::check(registers::read_count(s) == 0, Err(Refusal::QueueEmpty))?;
    let reads = registers::reads(s);
    let word = queue::oldest(reads);
    registers::put_reads(s, queue::pop(reads));
    Ok(word)
}
