// Numbers in bytes, as bench sheets have them: a value or the place of a fault. specs/Number.antt says what stands where.
#![tactic(auto)]

ghost use Rattle.std.specs.Prelude.{◌≡◌, ◌+◌, ◌≤◌, ◌<◌, length};
ghost use Rattle.numbers.specs.Number.{last_group, groups_value, number_at, number_to, then_number, then_numbers, value_of, next_of};

// A number as the bytes have it: its value, and the place after it.
#[derive(Clone, Copy)]
pub struct Numeral {
    pub value: u32,
    pub next: usize,
}

// What stands at a place: a number, or the place that is bad.
pub type Parsed = Result<Numeral, usize>;

// The largest number, for where any may stand.
pub const LARGEST: u32 = 0xFFFF_FFFF;

const WIDE_LARGEST: u64 = LARGEST as u64;

// The place of the last group of the number at `at`: the first byte from there on whose top bit is clear.
fn last_group(s: &[u8], at: usize) -> usize
    ensures { result ≡ last_group s.now at }
{
    match s.iter().skip(at).position(|b| *b < 128) {
        Some(groups) => at + groups,
        None => at.max(s.len()),
    }
}

// The value of `k` groups. A shortest form of more than five is too large in any case.
#[tactic(auto, using(crate::proofs::Laws::value_step), unfolding(crate::specs::Number::groups_value))]
fn groups_value(s: &[u8], at: usize, k: usize) -> u64
    requires within { at + k ≤ length s.now }
    requires few { k ≤ 5 }
    ensures value { result ≡ groups_value s.now at k }
    ensures small { result < 34359738368 }
{
    if k == 0 {
        return 0;
    }
    let high = groups_value(s, at + 1, k - 1);
    u64::from(s[at]) % 128 + 128 * high
}

// The number at `at`.
#[tactic(auto, using(crate::proofs::Laws::number_ways))]
pub fn number(s: &[u8], at: usize) -> Parsed
    ensures { result ≡ number_at s.now at }
{
    let end = last_group(s, at);
    if s.len() <= end {
        return Err(s.len());
    }
    if at + 4 < end {
        return Err(at);
    }
    let value = groups_value(s, at, end - at + 1);
    let shortest = (end <= at) | (0 < s[end]);
    let fits = value <= WIDE_LARGEST;
    if shortest & fits {
        Ok(Numeral {
            value: value as u32,
            next: end + 1,
        })
    } else {
        Err(at)
    }
}

// The number at `at`, which may be `max` at most.
#[tactic(auto, unfolding(crate::specs::Number::number_to, crate::specs::Number::limited))]
pub fn number_to(s: &[u8], at: usize, max: u32) -> Parsed
    ensures { result ≡ number_to s.now max at }
{
    let read = number(s, at)?;
    if read.value <= max { Ok(read) } else { Err(at) }
}

// After what stood before, one number more.
#[tactic(auto, unfolding(crate::specs::Number::then_number))]
pub fn then_number(s: &[u8], prior: Parsed, max: u32) -> Parsed
    ensures { result ≡ then_number s.now max prior }
{
    let before = prior?;
    number_to(s, before.next, max)
}

// After what stood before, `k` numbers more: the last of them, or what stood before if `k` is 0.
#[tactic(auto, using(crate::proofs::Laws::numbers_none, crate::proofs::Laws::numbers_more))]
pub fn then_numbers(s: &[u8], prior: Parsed, k: u32) -> Parsed
    ensures { result ≡ then_numbers s.now k prior }
{
    let mut last = prior;
    for _ in 0..k {
        last = then_number(s, last, LARGEST);
    }
    last
}

pub fn value_of(r: Parsed) -> u32
    ensures { result ≡ value_of r }
{
    r.map_or(0, |number| number.value)
}

pub fn next_of(r: Parsed) -> usize
    ensures { result ≡ next_of r }
{
    match r {
        Ok(number) => number.next,
        Err(place) => place,
    }
}
