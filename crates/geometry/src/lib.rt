// Pages, bus words and byte addresses: the conversions between the three, for every D.
#![tactic(auto)]

ghost use Rattle.std.specs.Prelude.{◌≡◌, ◌+◌, ◌<◌, ◌≤◌};
ghost use Rattle.model.specs.Geometry.{pages_fit, image_words, info_count, info_first, info_index, data_image_page, info_image_page, first_word, page_of, page_start, bank_of, page_in_bank, bank_of_word, word_in_page, image_page, word_at, special_page};

use model::{
    BusWord, ByteAddress, INFO_PAGES, ImagePage, MAX_PAGES, MIN_PAGES, PAGE_BYTES, PAGE_WORDS,
    Page, WIDE_INFO_PAGES, WIDE_PAGE_WORDS,
};

pub fn pages_fit(d: u32) -> bool
    ensures { result ≡ pages_fit d }
{
    (MIN_PAGES <= d) & (d <= MAX_PAGES)
}

pub fn image_words(d: u32) -> usize
    ensures { result ≡ image_words d }
{
    2 * (d as usize + WIDE_INFO_PAGES) * WIDE_PAGE_WORDS
}

// How many information pages of type `t` a bank has.
pub fn info_count(t: u8) -> u32
    ensures { (result ≡ info_count t) × (result ≤ 10) }
{
    match t {
        0 => 10,
        1 => 1,
        2 => 2,
        3..=255 => 0,
    }
}

// Where the pages of type `t` start among the 13 information pages of their bank.
pub fn info_first(t: u8) -> u32
    ensures { (result ≡ info_first t) × (result ≤ 13) }
{
    match t {
        0 => 0,
        1 => 10,
        2 => 11,
        3..=255 => INFO_PAGES,
    }
}

// The number of an information page among the 26 of the settings.
pub fn info_index(bank: u32, t: u8, page: u32) -> usize
    ensures { result ≡ info_index bank t page }
{
    bank as usize * WIDE_INFO_PAGES + (info_first(t) as usize + page as usize)
}

// A 32-bit address lies in one of 4,194,304 pages.
pub fn page_of(a: ByteAddress) -> Page
    ensures { (result ≡ page_of a) × (result.0 < 4194304) }
{
    Page(a.0 / PAGE_BYTES)
}

pub fn page_start(p: Page) -> ByteAddress
    requires { p.0 < 4194304 }
    ensures { result ≡ page_start p }
{
    ByteAddress(p.0 * PAGE_BYTES)
}

pub fn bank_of(d: u32, p: Page) -> u32
    ensures { (result ≡ bank_of d p) × (result ≤ 1) }
{
    if p.0 < d { 0 } else { 1 }
}

pub fn page_in_bank(d: u32, p: Page) -> u32
    ensures { (result ≡ page_in_bank d p) × (result ≤ p.0) }
{
    let page = p.0;
    if page < d { page } else { page - d }
}

// The bank of a bus word of the image.
pub fn bank_of_word(d: u32, w: BusWord) -> u32
    ensures { (result ≡ bank_of_word d w) × (result ≤ 1) }
{
    let bank = (d as usize + WIDE_INFO_PAGES) * WIDE_PAGE_WORDS;
    if (w.0 as usize) < bank { 0 } else { 1 }
}

// The bus word of its page at which an address lies.
pub fn word_in_page(a: ByteAddress) -> u32
    ensures { (result ≡ word_in_page a) × (result < 256) }
{
    a.0 % PAGE_BYTES / 4
}

// A bank has at most 269 pages.
pub fn data_image_page(d: u32, bank: u32, page: u32) -> ImagePage
    requires { (d ≤ 256) × (bank ≤ 1) × (page < 4194304) }
    ensures { (result ≡ data_image_page d bank page) × (result.0 ≤ 269 + page) }
{
    ImagePage(bank * (d + INFO_PAGES) + page)
}

// The information pages of a bank come after its D data pages.
pub fn info_image_page(d: u32, bank: u32, t: u8, page: u32) -> ImagePage
    requires { (d ≤ 256) × (bank ≤ 1) × (page < 4194304) }
    ensures { (result ≡ info_image_page d bank t page) × (result.0 < 16777216) }
{
    let after = data_image_page(d, bank, d);
    ImagePage(after.0 + (info_first(t) + page))
}

pub fn image_page(d: u32, information: bool, t: u8, p: Page) -> ImagePage
    requires { (d ≤ 256) × (p.0 < 4194304) }
    ensures { (result ≡ image_page d information t p) × (result.0 < 16777216) }
{
    let bank = bank_of(d, p);
    let page = page_in_bank(d, p);
    if information {
        info_image_page(d, bank, t, page)
    } else {
        data_image_page(d, bank, page)
    }
}

// An image has fewer than 4,294,967,296 bus words, so fewer than 16,777,216 pages.
pub fn first_word(q: ImagePage) -> BusWord
    requires { q.0 < 16777216 }
    ensures { result ≡ first_word q }
{
    BusWord(q.0 * PAGE_WORDS)
}

// The bus word of the image that a byte address means.
pub fn word_at(d: u32, information: bool, t: u8, a: ByteAddress) -> BusWord
    requires { d ≤ 256 }
    ensures { result ≡ word_at d information t a }
{
    let p = page_of(a);
    let q = image_page(d, information, t, p);
    let first = first_word(q);
    let word = word_in_page(a);
    BusWord(first.0 + word)
}

// A page of bank 0 and type 0, as the seed pages and the isolated page are.
pub fn special_page(d: u32, page: u32) -> ImagePage
    requires { (d ≤ 256) × (page < 4194304) }
    ensures { (result ≡ special_page d page) × (result.0 < 16777216) }
{
    info_image_page(d, 0, 0, page)
}
