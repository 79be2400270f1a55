// Answers and refusals by number and what they report, checks, and the error record.
#![tactic(auto)]

ghost use Rattle.std.specs.Prelude.{◌≡◌};
ghost use Rattle.model.specs.Errors.{is_recorded, recorded};
ghost use Rattle.model.specs.Refusals.{refusal_number, number_of, decider_number, reported, accepts, is_denied, check, or_else, phase_answer, ready_answer};
ghost use Rattle.model.specs.State.{is_ready, is_busy, no_errors};

use model::{Answer, ByteAddress, Decider, Errors, NO_DECIDER, Phase, Progress, Refusal};

// A refusal's number in document 01.
pub fn number(r: Refusal) -> u8
    ensures { result ≡ refusal_number r }
{
    match r {
        Refusal::Invalid => 1,
        Refusal::Disabled => 2,
        Refusal::Uninitialised => 3,
        Refusal::Busy => 4,
        Refusal::Malformed => 5,
        Refusal::ShortBuffer => 6,
        Refusal::OutOfRange => 7,
        Refusal::CrossesWindow => 8,
        Refusal::Denied(_) => 9,
        Refusal::QueueEmpty => 10,
        Refusal::QueueFull => 11,
        Refusal::Unexpected => 12,
        Refusal::BadSetting => 13,
    }
}

// The answer's number; 0 if nothing was refused.
pub fn number_of(a: Answer) -> u8
    ensures { result ≡ number_of a }
{
    match a {
        Ok(()) => 0,
        Err(refusal) => number(refusal),
    }
}

// The decider's number: a region's own, then the others.
pub fn decider_number(d: Decider) -> u8
    ensures { result ≡ decider_number d }
{
    match d {
        Decider::Region(i) => i,
        Decider::Default => 8,
        Decider::PageSetting => 9,
        Decider::SeedLock => 10,
        Decider::BankPermission => 11,
    }
}

// Refusal 9 reports who decided, every other answer nobody.
pub fn reported(a: Answer) -> u8
    ensures { result ≡ reported a }
{
    match a {
        Ok(()) => NO_DECIDER,
        Err(Refusal::Denied(by)) => decider_number(by),
        Err(_) => NO_DECIDER,
    }
}

pub fn accepts(a: Answer) -> bool
    ensures { result ≡ accepts a }
{
    a.is_ok()
}

pub fn is_denied(a: Answer) -> bool
    ensures { result ≡ is_denied a }
{
    number_of(a) == 9
}

// Of an operation, the refusals 5, 7, 8 and 9 are recorded.
pub fn is_recorded(n: u8) -> bool
    ensures { result ≡ is_recorded n }
{
    (n == 5) | ((n == 7) | ((n == 8) | (n == 9)))
}

// A check: the refusal if its test holds.
pub fn check(test: bool, refusal: Answer) -> Answer
    ensures { result ≡ check test refusal }
{
    if test { refusal } else { Ok(()) }
}

// The first of two checks that applies.
pub fn or_else(a: Answer, b: Answer) -> Answer
    ensures { result ≡ or_else a b }
{
    a.and(b)
}

// ---- the phase, and what is in progress

pub fn is_ready(p: Phase) -> bool
    ensures { result ≡ is_ready p }
{
    match p {
        Phase::Uninitialised => false,
        Phase::Ready => true,
        Phase::Disabled => false,
    }
}

pub fn is_busy(p: Progress) -> bool
    ensures { result ≡ is_busy p }
{
    p.is_some()
}

// Check 2 or 3 of a phase.
pub fn phase_answer(p: Phase) -> Answer
    ensures { result ≡ phase_answer p }
{
    match p {
        Phase::Uninitialised => Err(Refusal::Uninitialised),
        Phase::Ready => Ok(()),
        Phase::Disabled => Err(Refusal::Disabled),
    }
}

// Checks 1, 2 and 3.
pub fn ready_answer(valid: bool, p: Phase) -> Answer
    ensures { result ≡ ready_answer valid p }
{
    check(!valid, Err(Refusal::Invalid)).and(phase_answer(p))
}

// ---- the error record

pub fn no_errors() -> Errors
    ensures { result ≡ no_errors }
{
    Errors {
        malformed: false,
        range: false,
        window: false,
        denied: false,
        address: ByteAddress(0),
    }
}

// Refusals 5, 7, 8 and 9 join the record, with their address.
pub fn recorded(answer: Answer, address: ByteAddress, e: Errors) -> Errors
    ensures { result ≡ recorded (number_of answer) address e }
{
    let n = number_of(answer);
    let malformed = n == 5;
    let range = n == 7;
    let window = n == 8;
    let denied = n == 9;
    if is_recorded(n) {
        return Errors {
            malformed: e.malformed | malformed,
            range: e.range | range,
            window: e.window | window,
            denied: e.denied | denied,
            address,
        };
    }
    e
}
