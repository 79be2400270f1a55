// How far a span is allowed, and check 9, on the state where it lies.
#![tactic(auto)]

ghost use Rattle.std.specs.Prelude.{◌≡◌, true, false, not, ◌+◌, ◌<◌, ◌≤◌, get_or};
ghost use Rattle.model.specs.Rights.{page_grants, leading, allowed_words, denied, decider_of};
ghost use Rattle.model.specs.Kinds.{is_bank_erase};
ghost use Rattle.model.specs.Places.{span_words};
ghost use Rattle.model.specs.Refusals.{check};
ghost use Rattle.model.specs.Checks.{malformed};
ghost use Rattle.registers.specs.Registers.{settings_of, stands_for};
ghost use Rattle.spans.specs.OnePage.{OnePage};

use model::{Answer, Decider, Operation, PAGE_BYTES, PAGE_WORDS, Page, Refusal, WIDE_PAGE_BYTES};
use registers::Registers;

// How many of the `count` pages from `from` on have the right before the first that has not.
fn leading_pages(s: &Registers, o: Operation, from: Page, count: u32) -> u32
    requires { from.0 + count < 4294967296 }
    ensures { (result ≡ leading (page_grants (stands_for s.now).setup o) from count) × (result ≤ count) }
{
    for i in 0..count {
        if !lookups::page_grants(s, o, Page(from.0 + i)) {
            return i;
        }
    }
    count
}

// Added before a division by the page's bytes, it rounds up.
const LAST_BYTE: u32 = PAGE_BYTES - 1;

pub fn allowed_words(s: &Registers, o: Operation) -> u32
    requires { span_words o < 1048576 }
    ensures { result ≡ allowed_words (stands_for s.now).setup o }
{
    let start = places::span_start(o);
    let words = places::span_words(o);
    let pages = (start.0 % PAGE_BYTES + 4 * words + LAST_BYTE) / PAGE_BYTES;
    let first = geometry::page_of(start);
    let lead = leading_pages(s, o, first, pages) * PAGE_WORDS;
    let skipped = geometry::word_in_page(start);
    if lead <= skipped {
        return 0;
    }
    let before = lead - skipped;
    if before < words { before } else { words }
}

fn bank_closed(s: &Registers, bank: u32) -> bool
    requires { bank ≤ 1 }
    ensures { result ≡ not (get_or (settings_of s.now).erase bank false) }
{
    !registers::permission(s, bank as usize)
}

// Check 9 of a bank erase: its bank's permission decides.
fn bank_answer(s: &Registers, o: Operation) -> Answer
    requires { is_bank_erase o ≡ true }
    ensures { result ≡ check (denied (stands_for s.now).setup o) (Err (Refusal.Denied (decider_of (stands_for s.now).setup o))) }
{
    let address = o.address;
    let d = registers::pages(s);
    let bank = geometry::bank_of(d, geometry::page_of(address));
    let by = Decider::BankPermission;
    refusals::check(bank_closed(s, bank), Err(Refusal::Denied(by)))
}

// Check 9 of a span within one page: what decides that page decides.
fn page_answer(s: &Registers, o: Operation) -> Answer
    requires { OnePage o }
    ensures { result ≡ check (denied (stands_for s.now).setup o) (Err (Refusal.Denied (decider_of (stands_for s.now).setup o))) }
{
    let information = places::is_information(o);
    let page = geometry::page_of(places::span_start(o));
    let ruling = lookups::ruling_at(s, information, o.info, page);
    let by = ruling.decider;
    refusals::check(
        !rights::grants(ruling.rights, places::right_needed(o)),
        Err(Refusal::Denied(by)),
    )
}

// Check 9 of another span: who decides its first denied page is named.
fn span_answer(s: &Registers, o: Operation) -> Answer
    requires { (is_bank_erase o ≡ false) × (span_words o < 1048576) }
    ensures { result ≡ check (denied (stands_for s.now).setup o) (Err (Refusal.Denied (decider_of (stands_for s.now).setup o))) }
{
    let words = places::span_words(o);
    let allowed = allowed_words(s, o);
    if allowed < words {
        let page = places::span_address(o, allowed) / WIDE_PAGE_BYTES;
        let information = places::is_information(o);
        let ruling = lookups::ruling_at(s, information, o.info, Page(page as u32));
        let by = ruling.decider;
        return Err(Refusal::Denied(by));
    }
    Ok(())
}

// Check 9.
pub fn right_answer(s: &Registers, o: Operation) -> Answer
    requires { malformed o ≡ false }
    ensures { result ≡ check (denied (stands_for s.now).setup o) (Err (Refusal.Denied (decider_of (stands_for s.now).setup o))) }
{
    if places::is_bank_erase(o) {
        return bank_answer(s, o);
    }
    let start = places::span_start(o);
    if start.0 % PAGE_BYTES + 4 * places::span_words(o) <= PAGE_BYTES {
        return page_answer(s, o);
    }
    span_answer(s, o)
}
