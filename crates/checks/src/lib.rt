// Checks 5, 7, 8 and 9 of an operation.
#![tactic(auto)]

ghost use Rattle.std.specs.Prelude.{◌≡◌, false};
ghost use Rattle.model.specs.Kinds.{no_partition};
ghost use Rattle.model.specs.Checks.{unaligned, bad_count, malformed, past_data, span_limit, out_of_range, crosses_window};
ghost use Rattle.model.specs.Refusals.{check};

use model::{Answer, ByteAddress, MAX_COUNT, Operation, Refusal, WIDE_PAGE_BYTES};

pub fn unaligned(a: ByteAddress) -> bool
    ensures { result ≡ unaligned a }
{
    a.0 % 4 != 0
}

fn no_partition(o: Operation) -> bool
    ensures { result ≡ no_partition o }
{
    1 < o.partition
}

fn bad_count(o: Operation) -> bool
    ensures { result ≡ bad_count o }
{
    let none = o.count == 0;
    let many = MAX_COUNT < o.count;
    none | many
}

// Check 5: a kind from 4 on is no kind.
pub fn form_answer(o: Operation) -> Answer
    ensures { result ≡ check (malformed o) (Err Refusal.Malformed) }
{
    let address = o.address;
    let partition = no_partition(o);
    let typed = places::is_information(o) & (2 < o.info);
    let place = unaligned(address);
    let count = bad_count(o);
    let kind = o.kind;
    let malformed = Err(Refusal::Malformed);
    match kind {
        0 | 1 => refusals::check(partition | (typed | (place | count)), malformed),
        2 => refusals::check(partition | (typed | place), malformed),
        3 => refusals::check(partition | place, malformed),
        4..=255 => refusals::check(true, malformed),
    }
}

// Whether an address lies at or past the end of the data pages.
pub fn past_data(d: u32, a: ByteAddress) -> bool
    ensures { result ≡ past_data d a }
{
    2 * (d as usize) * WIDE_PAGE_BYTES <= a.0 as usize
}

// The address past the last page that the operation may cover.
fn span_limit(d: u32, o: Operation) -> usize
    ensures { result ≡ span_limit d o }
{
    if places::is_information(o) {
        let address = o.address;
        let bank = geometry::bank_of(d, geometry::page_of(address)) as usize;
        let pages = geometry::info_count(o.info) as usize;
        return (bank * (d as usize) + pages) * WIDE_PAGE_BYTES;
    }
    2 * (d as usize) * WIDE_PAGE_BYTES
}

// Check 7.
pub fn out_of_range(d: u32, o: Operation) -> bool
    ensures { result ≡ out_of_range d o }
{
    let address = o.address;
    let past = past_data(d, address);
    let bank_erase = places::is_bank_erase(o);
    let limit = span_limit(d, o);
    let end = places::span_address(o, places::span_words(o));
    past | (!bank_erase & (limit < end))
}

const WINDOW_BYTES: usize = 64;

// Check 8, of an operation that passes check 5: a program has a last byte.
pub fn crosses_window(o: Operation) -> bool
    requires { malformed o ≡ false }
    ensures { result ≡ crosses_window o }
{
    if places::is_program(o) {
        let address = o.address;
        let first = address.0 as usize;
        let last = first + 4 * (o.count as usize) - 1;
        return first / WINDOW_BYTES != last / WINDOW_BYTES;
    }
    false
}
