// Answers and records: checks 5, 7, 8 and 9 of an operation, and what they record, on the state where it lies.
#![tactic(auto)]

ghost use Rattle.std.specs.Prelude.{◌≡◌, cond, ◌&&◌, ◌||◌, eqb};
ghost use Rattle.model.specs.Rights.{readable_words};
ghost use Rattle.model.specs.Kinds.{is_read, is_program};
ghost use Rattle.model.specs.Refusals.{number_of, accepts, is_denied, is_denied_read};
ghost use Rattle.model.specs.Checks.{operation_answer};
ghost use Rattle.model.specs.Errors.{error_address, recorded};
ghost use Rattle.registers.specs.Registers.{errors_at, stands_for};
ghost use Rattle.answers.specs.Answered.{Answered};

use model::{Answer, ByteAddress, Errors, Operation, Refusal};
use registers::Registers;

// Checks 5, 7, 8 and 9. Only an operation that passes check 5 has a span to look at.
#[tactic(auto, using(model::proofs::Answers::check_passed), unfolding(model::specs::Checks::operation_answer, registers::specs::Registers::stands_for))]
pub fn operation_answer(s: &Registers, o: Operation) -> Answer
    ensures { result ≡ operation_answer (stands_for s.now).setup o }
{
    let d = registers::pages(s);
    checks::form_answer(o)?;
    refusals::check(checks::out_of_range(d, o), Err(Refusal::OutOfRange))?;
    refusals::check(checks::crosses_window(o), Err(Refusal::CrossesWindow))?;
    spans::right_answer(s, o)
}

// A denied read is refused and still starts.
pub fn is_denied_read(o: Operation, answer: Answer) -> bool
    ensures { result ≡ is_denied_read o (number_of answer) }
{
    let read = places::is_read(o);
    let denied = refusals::is_denied(answer);
    read & denied
}

// How many words of a read are readable: those before the first denied page, and all if its checks accept it.
pub fn readable(s: &Registers, o: Operation, answer: Answer) -> u32
    requires { answer ≡ operation_answer (stands_for s.now).setup o }
    ensures { result ≡ cond (is_denied_read o (number_of answer)) (readable_words (stands_for s.now).setup o) o.count }
{
    if is_denied_read(o, answer) {
        return spans::allowed_words(s, o);
    }
    o.count
}

// Whether a read that passes 5 and 7 has so many readable words: a read in progress does, be it denied or not.
pub fn read_fits(s: &Registers, o: Operation, readable: u32) -> bool
    ensures { result ≡ (is_read o && ((accepts (operation_answer (stands_for s.now).setup o) || is_denied (operation_answer (stands_for s.now).setup o)) && eqb readable (readable_words (stands_for s.now).setup o))) }
{
    let read = places::is_read(o);
    let formed = refusals::accepts(checks::form_answer(o));
    let outside = checks::out_of_range(registers::pages(s), o);
    if !(read & (formed & !outside)) {
        return false;
    }
    readable == spans::allowed_words(s, o)
}

// Whether an operation is a program that checks 5, 7, 8 and 9 accept: its words lie in one page.
pub fn program_fits(s: &Registers, o: Operation) -> bool
    ensures { result ≡ (is_program o && accepts (operation_answer (stands_for s.now).setup o)) }
{
    let program = places::is_program(o);
    let formed = refusals::accepts(checks::form_answer(o));
    if !(program & formed) {
        return false;
    }
    if checks::out_of_range(registers::pages(s), o) {
        return false;
    }
    if checks::crosses_window(o) {
        return false;
    }
    lookups::page_grants(s, o, geometry::page_of(o.address))
}

// Where a refusal is recorded: of a denied read at its first denied word, else at the operation's own address.
fn error_address(s: &Registers, o: Operation, answer: Answer) -> ByteAddress
    requires { Answered s.now o answer }
    ensures { result ≡ error_address (stands_for s.now).setup (number_of answer) o }
{
    if is_denied_read(o, answer) {
        let before = spans::allowed_words(s, o);
        let first_denied = places::span_address(o, before);
        return ByteAddress(first_denied as u32);
    }
    o.address
}

// The error record with a refusal of 5, 7, 8 or 9 in it.
pub fn recorded(s: &Registers, o: Operation, answer: Answer) -> Errors
    requires { Answered s.now o answer }
    ensures { result ≡ recorded (number_of answer) (error_address (stands_for s.now).setup (number_of answer) o) (errors_at s.now) }
{
    let address = error_address(s, o, answer);
    refusals::recorded(answer, address, registers::errors(s))
}
