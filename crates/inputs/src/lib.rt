// The life-cycle inputs and clearing the error record, on registers, and the checks that inputs and settings share.
#![tactic(auto)]

ghost use Rattle.std.specs.Prelude.{◌≡◌, cond};
ghost use Rattle.model.specs.State.{no_errors};
ghost use Rattle.model.specs.Refusals.{number_of};
ghost use Rattle.model.specs.Settings.{setting_answer};
ghost use Rattle.registers.specs.Registers.{decode, put_errors};
ghost use Rattle.calls.specs.Calls.{set_inputs_in, clear_in};

use model::{Answer, Inputs, Refusal};
use registers::Registers;

// Checks 1, 4 and 13, in this order: what is in progress is looked at in a valid state only.
#[tactic(auto, using(model::proofs::Answers::check_passed, crate::proofs::Configured::answer_valid, crate::proofs::Configured::answer_busy))]
pub fn setting_answer(s: &Registers, fits: bool) -> Answer
    ensures { result ≡ setting_answer (decode s.now) fits }
{
    refusals::check(!validity::valid(s), Err(Refusal::Invalid))?;
    let busy = registers::progress(s).is_some();
    refusals::check(busy, Err(Refusal::Busy))?;
    refusals::check(!fits, Err(Refusal::BadSetting))
}

// The life-cycle inputs: provision enable, and seeds locked. They are no setting.
#[tactic(auto, using(crate::proofs::Configured::inputs_refused, crate::proofs::Configured::inputs_kept))]
pub fn set_inputs(s: &mut Registers, inputs: Inputs) -> Answer
    ensures { record { told = number_of result; registers = s.new } ≡ set_inputs_in s.old inputs }
{
    setting_answer(s, true)?;
    registers::put_inputs(s, inputs);
    Ok(())
}

// A valid state's record is emptied. What is left and what is told stand apart, for an edit of each.
fn empty_record(s: &mut Registers, valid: bool)
    ensures { s.new ≡ cond valid (put_errors s.old no_errors) s.old }
{
    if valid {
        registers::put_errors(s, refusals::no_errors());
    }
}

// Clears the error record: the kinds and the last address.
pub fn clear(s: &mut Registers) -> Answer
    ensures { record { told = number_of result; registers = s.new } ≡ clear_in s.old }
{
    let valid = validity::valid(s);
    empty_record(s, valid);
    refusals::check(!valid, Err(Refusal::Invalid))
}
