// The life cycle on registers: reset, initialise with the seeds, and RMA.
#![tactic(auto)]

ghost use Rattle.std.specs.Prelude.{◌≡◌, ◌+◌, ◌≤◌, length, take, drop};
ghost use Rattle.model.specs.State.{flash};
ghost use Rattle.model.specs.Refusals.{number_of};
ghost use Rattle.model.specs.Geometry.{image_words, creator_page, owner_page};
ghost use Rattle.model.specs.Lifecycle.{is_disabled, seed_words, seeds_of, initialise_answer, rma_answer};
ghost use Rattle.registers.specs.Registers.{decode};
ghost use Rattle.calls.specs.Calls.{answer_of, seeds_or_none, told_seeds, reset_in, initialise_in, rma_in};

use model::{Answer, BusWord, CREATOR_PAGE, OWNER_PAGE, Phase, Refusal, Seeds};
use registers::Registers;

// Takes any state, and checks only its new D.
#[tactic(auto, using(crate::proofs::Cycled::reset_refused, crate::proofs::Cycled::reset_accepted))]
pub fn reset(s: &mut Registers, pages: u32) -> Answer
    ensures { record { told = number_of result; registers = s.new } ≡ reset_in s.old pages }
{
    refusals::check(!geometry::pages_fit(pages), Err(Refusal::Invalid))?;
    registers::clear(s, pages);
    Ok(())
}

fn is_disabled(p: Phase) -> bool
    ensures { result ≡ is_disabled p }
{
    match p {
        Phase::Uninitialised => false,
        Phase::Ready => false,
        Phase::Disabled => true,
    }
}

// ---- initialise

// Checks 1, 2 and 12 (when ready).
#[tactic(auto, using(crate::proofs::Cycled::initialise_checks))]
fn initialise_answer(s: &Registers, image: &[u32]) -> Answer
    ensures { result ≡ initialise_answer (decode s.now) (flash image.now) }
{
    let phase = registers::phase(s);
    refusals::check(!validity::valid_with(s, image), Err(Refusal::Invalid))?;
    refusals::check(is_disabled(phase), Err(Refusal::Disabled))?;
    refusals::check(refusals::is_ready(phase), Err(Refusal::Unexpected))
}

// A seed is the first 8 bus words of its page.
fn seed(image: &[u32], at: BusWord) -> [u32; 8]
    requires { at.0 + 8 ≤ length image.now }
    ensures { result ≡ take seed_words (drop at.0 image.now) }
{
    let start = at.0 as usize;
    let mut words = [0u32; 8];
    words.copy_from_slice(&image[start..start + 8]);
    words
}

fn seeds_of(d: u32, image: &[u32]) -> Seeds
    requires { (d ≤ 256) × (length image.now ≡ image_words d) }
    ensures { result ≡ seeds_of d (flash image.now) }
{
    let creator = seed(
        image,
        geometry::first_word(geometry::special_page(d, CREATOR_PAGE)),
    );
    let owner = seed(
        image,
        geometry::first_word(geometry::special_page(d, OWNER_PAGE)),
    );
    Seeds { creator, owner }
}

// An uninitialised controller becomes ready. With provision enabled the seeds are handed out.
#[tactic(auto, using(crate::proofs::Cycled::initialise_refused, crate::proofs::Cycled::initialise_fits, crate::proofs::Cycled::initialise_gives, crate::proofs::Cycled::initialise_gives_none))]
pub fn initialise(s: &mut Registers, image: &[u32]) -> Result<Option<Seeds>, Refusal>
    ensures { record { told = told_seeds (answer_of result) (seeds_or_none result); registers = s.new } ≡ initialise_in s.old (flash image.now) }
{
    initialise_answer(s, image)?;
    let d = registers::pages(s);
    let inputs = registers::inputs(s);
    registers::put_phase(s, Phase::Ready);
    if inputs.provision {
        Ok(Some(seeds_of(d, image)))
    } else {
        Ok(None)
    }
}

// ---- RMA

// Checks 1, 2 and 4.
#[tactic(auto, using(crate::proofs::Cycled::rma_checks))]
fn rma_answer(s: &Registers, image: &[u32]) -> Answer
    ensures { result ≡ rma_answer (decode s.now) (flash image.now) }
{
    refusals::check(!validity::valid_with(s, image), Err(Refusal::Invalid))?;
    refusals::check(is_disabled(registers::phase(s)), Err(Refusal::Disabled))?;
    refusals::check(registers::progress(s).is_some(), Err(Refusal::Busy))
}

// The image is wiped, both queues are emptied, and the controller is disabled until reset.
#[tactic(auto, using(crate::proofs::Cycled::rma_refused, crate::proofs::Cycled::rma_fits, crate::proofs::Cycled::rma_accepted))]
pub fn rma(s: &mut Registers, image: &mut [u32]) -> Answer
    ensures { record { told = number_of result; registers = s.new; flash = flash image.new } ≡ rma_in s.old (flash image.old) }
{
    rma_answer(s, image)?;
    wiping::wipe(image, registers::pages(s));
    let none = queue::empty();
    registers::put_phase(s, Phase::Disabled);
    registers::put_reads(s, none);
    registers::put_programs(s, none);
    Ok(())
}
