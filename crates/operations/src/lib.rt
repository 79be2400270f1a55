// Start on registers: an operation begins.
#![tactic(auto)]

ghost use Rattle.std.specs.Prelude.{◌≡◌, true, cond};
ghost use Rattle.model.specs.Kinds.{is_read};
ghost use Rattle.model.specs.Rights.{readable_words};
ghost use Rattle.model.specs.Steps.{start_answer, starts, progress_after, started, start};
ghost use Rattle.registers.specs.Registers.{decode, stands_for, put_progress, put};
ghost use Rattle.calls.specs.Calls.{told_answer, start_in};
ghost use Rattle.operations.specs.Starting.{Begins};

use model::{Answer, Operation, Refusal};
use registers::Registers;

// Checks 1 to 4.
#[tactic(auto, using(crate::proofs::Left::start_unready, crate::proofs::Left::start_ready))]
fn start_answer(s: &Registers) -> Answer
    ensures { result ≡ start_answer (decode s.now) }
{
    validity::ready(s)?;
    refusals::check(registers::progress(s).is_some(), Err(Refusal::Busy))
}

fn starts(o: Operation, answer: Answer) -> bool
    ensures { result ≡ starts o answer }
{
    let accepted = refusals::accepts(answer);
    let denied = answers::is_denied_read(o, answer);
    accepted | denied
}

// How many words of what starts are readable; 0 unless it reads.
#[tactic(auto, using(model::proofs::DeniedReads::started_asked, model::proofs::DeniedReads::readable_by_answer))]
fn readable(s: &Registers, o: Operation, answer: Answer) -> u32
    requires { Begins s.now o answer × (starts o answer ≡ true) }
    ensures { result ≡ cond (is_read o) (readable_words (stands_for s.now).setup o) 0 }
{
    if places::is_read(o) {
        return answers::readable(s, o, answer);
    }
    0
}

// What starts is in progress.
#[tactic(auto, using(crate::proofs::Left::begin_starts, crate::proofs::Left::begin_stays))]
fn begin(s: &mut Registers, o: Operation, answer: Answer)
    requires { Begins s.old o answer }
    ensures { s.new ≡ put_progress s.old (progress_after (stands_for s.old) o answer) }
{
    if starts(o, answer) {
        let words = readable(s, o, answer);
        registers::put_running(s, o, words);
    }
}

// What checks 5, 7, 8 and 9 leave: a refusal is recorded, and what starts is in progress.
#[tactic(auto, using(crate::proofs::Left::begin_records))]
fn started(s: &mut Registers, o: Operation, answer: Answer)
    requires { Begins s.old o answer }
    ensures { s.new ≡ put s.old (started (stands_for s.old) o answer).controller }
{
    let errors = answers::recorded(s, o, answer);
    begin(s, o, answer);
    registers::put_errors(s, errors);
}

#[tactic(auto, using(crate::proofs::Left::start_early))]
pub fn start(s: &mut Registers, o: Operation) -> Answer
    ensures answer { result ≡ (start (decode s.old) o).answer }
    ensures left { record { told = told_answer result; registers = s.new } ≡ start_in s.old o }
{
    let first = start_answer(s);
    match first {
        Err(refusal) => Err(refusal),
        Ok(()) => {
            let told = answers::operation_answer(s, o);
            started(s, o, told);
            told
        }
    }
}
