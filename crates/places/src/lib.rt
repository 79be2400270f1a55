// Kinds and partitions of operations, and where the words of an operation lie in the image.
#![tactic(auto)]

ghost use Rattle.std.specs.Prelude.{◌≡◌, false, ◌<◌, ◌≤◌};
ghost use Rattle.model.specs.Kinds.{is_read, is_program, is_page_erase, is_bank_erase, is_information, uses_count, right_needed};
ghost use Rattle.model.specs.Places.{span_start, span_words, span_address, total_words, place_of};
ghost use Rattle.model.specs.Checks.{out_of_range};

use model::{BusWord, ByteAddress, Operation, PAGE_WORDS, WIDE_INFO_PAGES, WIDE_PAGE_WORDS};

pub fn is_read(o: Operation) -> bool
    ensures { result ≡ is_read o }
{
    o.kind == 0
}

pub fn uses_count(o: Operation) -> bool
    ensures { result ≡ uses_count o }
{
    o.kind < 2
}

pub fn is_program(o: Operation) -> bool
    ensures { result ≡ is_program o }
{
    o.kind == 1
}

pub fn is_page_erase(o: Operation) -> bool
    ensures { result ≡ is_page_erase o }
{
    o.kind == 2
}

pub fn is_bank_erase(o: Operation) -> bool
    ensures { result ≡ is_bank_erase o }
{
    o.kind == 3
}

pub fn is_information(o: Operation) -> bool
    ensures { result ≡ is_information o }
{
    o.partition == 1
}

pub fn right_needed(o: Operation) -> u8
    ensures { (result ≡ right_needed o) × (0 < result) }
{
    if is_read(o) {
        return 1;
    }
    if is_program(o) {
        return 2;
    }
    4
}

pub fn span_start(o: Operation) -> ByteAddress
    ensures { result ≡ span_start o }
{
    let address = o.address;
    if is_page_erase(o) {
        geometry::page_start(geometry::page_of(address))
    } else {
        address
    }
}

pub fn span_words(o: Operation) -> u32
    ensures { result ≡ span_words o }
{
    if is_page_erase(o) {
        PAGE_WORDS
    } else {
        o.count
    }
}

// The address of word `k`, wide enough that no sum wraps: below five times 4,294,967,296.
pub fn span_address(o: Operation, k: u32) -> usize
    ensures { (result ≡ (span_address o k).0) × (result < 21474836480) }
{
    let start = span_start(o);
    start.0 as usize + 4 * (k as usize)
}

pub fn total_words(d: u32, o: Operation) -> usize
    ensures { result ≡ total_words d o }
{
    if is_bank_erase(o) {
        if is_information(o) {
            return (d as usize + WIDE_INFO_PAGES) * WIDE_PAGE_WORDS;
        }
        return d as usize * WIDE_PAGE_WORDS;
    }
    span_words(o) as usize
}

// The place of word `k` of an operation that lies in range.
pub fn place_of(d: u32, o: Operation, k: u32) -> BusWord
    requires { (10 ≤ d) × (d ≤ 256) × (out_of_range d o ≡ false) × (k < total_words d o) }
    ensures { result ≡ place_of d o k }
{
    let address = o.address;
    if is_bank_erase(o) {
        let bank = geometry::bank_of(d, geometry::page_of(address));
        let first = geometry::first_word(geometry::data_image_page(d, bank, 0));
        return BusWord(first.0 + k);
    }
    let information = is_information(o);
    let at = span_address(o, k);
    geometry::word_at(d, information, o.info, ByteAddress(at as u32))
}
