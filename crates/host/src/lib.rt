// Host read and page view on registers: reads past the queues, allowed during an operation and never recorded.
#![tactic(auto)]

ghost use Rattle.std.specs.Prelude.{◌≡◌, false, ◌+◌, ◌*◌, ◌<◌, ◌≤◌, get_or};
ghost use Rattle.model.specs.State.{flash};
ghost use Rattle.model.specs.Geometry.{page_of, image_page, first_word};
ghost use Rattle.model.specs.Refusals.{check, or_else};
ghost use Rattle.model.specs.Checks.{unaligned, past_data};
ghost use Rattle.model.specs.Host.{read_answer, host_answer, view_answer, view};
ghost use Rattle.registers.specs.Layout.{pages_at};
ghost use Rattle.registers.specs.Registers.{stands_for, decode};
ghost use Rattle.calls.specs.Calls.{answer_of, or_zero, told_host_word, told_start, host_read_in, view_in};
ghost use Rattle.validity.specs.Ready.{Ready};

use model::{Answer, ByteAddress, Page, Refusal, WIDE_PAGE_WORDS};
use registers::Registers;

// Check 9: the read right (1) of a data page decides.
fn read_answer(s: &Registers, p: Page) -> Answer
    ensures { result ≡ read_answer (stands_for s.now).setup p }
{
    let ruling = lookups::ruling_at(s, false, 0, p);
    let by = ruling.decider;
    refusals::check(!rights::grants(ruling.rights, 1), Err(Refusal::Denied(by)))
}

// Checks 5, 7 and 9 of a host read, in this order.
fn late_answer(s: &Registers, at: ByteAddress) -> Answer
    ensures { result ≡ or_else (check (unaligned at) (Err Refusal.Malformed)) (or_else (check (past_data (get_or s.now pages_at 0) at) (Err Refusal.OutOfRange)) (read_answer (stands_for s.now).setup (page_of at))) }
{
    refusals::check(checks::unaligned(at), Err(Refusal::Malformed))?;
    refusals::check(
        checks::past_data(registers::pages(s), at),
        Err(Refusal::OutOfRange),
    )?;
    read_answer(s, geometry::page_of(at))
}

// A host read of a state that has passed checks 1 to 3.
#[tactic(auto, using(crate::proofs::Hosted::late_refused))]
pub fn ready_read(s: &Registers, image: &[u32], at: ByteAddress) -> Result<u32, Refusal>
    requires { Ready s.now (flash image.now) }
    ensures answer { answer_of result ≡ host_answer (decode s.now) (flash image.now) at }
    ensures told { told_host_word (answer_of result) (or_zero result) ≡ host_read_in s.now (flash image.now) at }
{
    late_answer(s, at)?;
    let place = geometry::word_at(registers::pages(s), false, 0, at);
    Ok(words::delivered(image, place))
}

// The true word at an address of the data pages.
#[tactic(auto, using(crate::proofs::Hosted::answered_early, crate::proofs::Hosted::read_early))]
pub fn host_read(s: &Registers, image: &[u32], at: ByteAddress) -> Result<u32, Refusal>
    ensures answer { answer_of result ≡ host_answer (decode s.now) (flash image.now) at }
    ensures told { told_host_word (answer_of result) (or_zero result) ≡ host_read_in s.now (flash image.now) at }
{
    validity::ready_with(s, image)?;
    ready_read(s, image, at)
}

// Checks 1, 2, 3, 7 and 9, in this order.
fn view_answer(s: &Registers, image: &[u32], p: Page) -> Answer
    ensures { result ≡ view_answer (decode s.now) (flash image.now) p }
{
    let ready = validity::ready_with(s, image);
    let past = 2 * (registers::pages(s) as usize) <= p.0 as usize;
    let range = refusals::check(past, Err(Refusal::OutOfRange));
    let right = read_answer(s, p);
    refusals::or_else(ready, refusals::or_else(range, right))
}

// The word of the image at which a data page starts.
fn page_start(s: &Registers, p: Page) -> u32
    requires { (get_or s.now pages_at 0 ≤ 256) × (p.0 < 512) }
    ensures { result ≡ (first_word (image_page (get_or s.now pages_at 0) false 0 p)).0 }
{
    let q = geometry::image_page(registers::pages(s), false, 0, p);
    let first = geometry::first_word(q);
    first.0
}

// The word of the image at which a view starts.
#[tactic(auto, using(crate::proofs::Hosted::view_refused, crate::proofs::Hosted::view_shown, crate::proofs::Hosted::view_fits))]
pub fn view_start(s: &Registers, image: &[u32], p: Page) -> Result<u32, Refusal>
    ensures answer { answer_of result ≡ view_answer (decode s.now) (flash image.now) p }
    ensures told { told_start (answer_of result) (or_zero result) ≡ view_in s.now (flash image.now) p }
{
    view_answer(s, image, p)?;
    Ok(page_start(s, p))
}

// A data page's own words inside the lent image, or no words. `refusal` is set to the answer's number, and `decider` to what it
// reports.
pub fn view<'a>(
    s: &Registers,
    image: &'a [u32],
    p: Page,
    refusal: &mut u8,
    decider: &mut u8,
) -> &'a [u32]
    ensures words { result.now ≡ (view (decode s.now) (flash image.now) p).words }
    ensures place { result.ref_ptr ≡ (image.entry.ref_ptr.0, (view (decode s.now) (flash image.now) p).start.0 * 4 + image.entry.ref_ptr.1) }
    ensures number { refusal.new ≡ (view (decode s.now) (flash image.now) p).number }
    ensures decider { decider.new ≡ (view (decode s.now) (flash image.now) p).decider }
{
    let answer = view_answer(s, image, p);
    let accepted = refusals::accepts(answer);
    let number = refusals::number_of(answer);
    let by = refusals::reported(answer);
    *refusal = number;
    *decider = by;
    if accepted {
        let start = page_start(s, p) as usize;
        let end = start + WIDE_PAGE_WORDS;
        return &image[start..end];
    }
    &image[0..0]
}
