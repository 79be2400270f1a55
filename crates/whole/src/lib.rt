// A whole operation on the registers: its checks once, then its words in order, without steps and queues.
#![tactic(auto)]

ghost use Rattle.std.specs.Prelude.{◌≡◌, true, ◌++◌, ◌≤◌, length, drop};
ghost use Rattle.model.specs.State.{flash};
ghost use Rattle.model.specs.Refusals.{accepted, accepts};
ghost use Rattle.model.specs.Queue.{empty_queue};
ghost use Rattle.model.specs.Places.{total_words};
ghost use Rattle.model.specs.Checks.{operation_answer};
ghost use Rattle.model.specs.Whole.{whole_answer, short_buffer, whole};
ghost use Rattle.plans.specs.Plan.{places_of, delivered_at, plan_started, plan_answered, performed};
ghost use Rattle.registers.specs.Layout.{reads_from};
ghost use Rattle.registers.specs.Registers.{setup_of, stands_for, decode, put_queue};
ghost use Rattle.transfers.specs.Placed.{Placed};
ghost use Rattle.calls.specs.Calls.{answer_of, or_zero, told_bits, whole_left, whole_in};
ghost use Rattle.whole.specs.Admitted.{Admitted};

use model::{Answer, Operation, Refusal};
use registers::Registers;

// ---- checks 1 to 4, and 6

// Of a whole operation 4 also applies if a queue holds a word.
#[tactic(auto, using(crate::proofs::Completed::unready))]
pub fn whole_answer(s: &Registers, image: &[u32]) -> Answer
    ensures { result ≡ whole_answer (decode s.now) (flash image.now) }
{
    validity::ready_with(s, image)?;
    let busy = registers::progress(s).is_some();
    let reads = registers::read_count(s) == 0;
    let programs = registers::program_count(s) == 0;
    refusals::check(busy | !(reads & programs), Err(Refusal::Busy))
}

// Only an operation that passes check 5 comes to check 6.
pub fn short_buffer(o: Operation, buffer: &[u32]) -> bool
    ensures { result ≡ short_buffer o buffer.now }
{
    let formed = refusals::accepts(checks::form_answer(o));
    let counts = places::uses_count(o);
    let short = buffer.len() < o.count as usize;
    formed & (counts & short)
}

// ---- what is done once they have passed

// A read's words go to the buffer, and the queue that they go through is left empty.
fn read(s: &mut Registers, image: &[u32], o: Operation, buffer: &mut [u32], readable: u32)
    requires { Placed (setup_of s.old).pages o (flash image.now) × (total_words (setup_of s.old).pages o ≤ length buffer.old) }
    ensures registers { s.new ≡ put_queue s.old reads_from empty_queue }
    ensures buffer { buffer.new ≡ delivered_at (flash image.now) readable 0 (places_of (setup_of s.old).pages o) ++ drop (length (places_of (setup_of s.old).pages o)) buffer.old }
{
    transfers::read(registers::pages(s), image, o, buffer, readable);
    registers::put_reads(s, queue::empty());
}

// An operation that passes every check: the bits that it changes.
fn started(s: &mut Registers, image: &mut [u32], o: Operation, buffer: &mut [u32]) -> u32
    requires { Admitted s.old (flash image.old) o buffer.old × (accepts (operation_answer (setup_of s.old) o) ≡ true) }
    ensures { record { told = told_bits accepted result; registers = s.new; flash = flash image.new; buffer = buffer.new } ≡ whole_left s.old (performed (stands_for s.old) (flash image.old) o buffer.old (plan_started (setup_of s.old) o accepted)) }
{
    if places::is_read(o) {
        read(s, image, o, buffer, o.count);
        return 0;
    }
    if places::is_program(o) {
        let bits = transfers::program(s, image, o, buffer);
        registers::put_programs(s, queue::empty());
        return bits;
    }
    transfers::erase(s, image, o)
}

// What the answer of checks 5, 7, 8 and 9 leaves: a refusal is recorded, and a denied read runs.
fn answered(
    s: &mut Registers,
    image: &mut [u32],
    o: Operation,
    buffer: &mut [u32],
    answer: Answer,
) -> Result<u32, Refusal>
    requires { Admitted s.old (flash image.old) o buffer.old × (answer ≡ operation_answer (setup_of s.old) o) }
    ensures answer { answer_of result ≡ answer }
    ensures left { record { told = told_bits (answer_of result) (or_zero result); registers = s.new; flash = flash image.new; buffer = buffer.new } ≡ whole_left s.old (performed (stands_for s.old) (flash image.old) o buffer.old (plan_answered (setup_of s.old) o answer)) }
{
    match answer {
        Ok(()) => Ok(started(s, image, o, buffer)),
        Err(refusal) => {
            let errors = answers::recorded(s, o, answer);
            if answers::is_denied_read(o, answer) {
                let readable = answers::readable(s, o, answer);
                read(s, image, o, buffer, readable);
                registers::put_errors(s, errors);
                return Err(refusal);
            }
            registers::put_errors(s, errors);
            Err(refusal)
        }
    }
}

// 6 comes after 5, since a malformed operation does not come to it, and before 7, 8 and 9.
#[tactic(auto, using(crate::proofs::Completed::run_refused, crate::proofs::Completed::run_short, model::proofs::Answers::check_passed))]
pub fn run(
    s: &mut Registers,
    image: &mut [u32],
    o: Operation,
    buffer: &mut [u32],
) -> Result<u32, Refusal>
    ensures answer { answer_of result ≡ (whole (decode s.old) (flash image.old) o buffer.old).result.answer }
    ensures left { record { told = told_bits (answer_of result) (or_zero result); registers = s.new; flash = flash image.new; buffer = buffer.new } ≡ whole_in s.old (flash image.old) o buffer.old }
{
    whole_answer(s, image)?;
    refusals::check(short_buffer(o, buffer), Err(Refusal::ShortBuffer))?;
    let answer = answers::operation_answer(s, o);
    answered(s, image, o, buffer, answer)
}
