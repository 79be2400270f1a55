// The readers of a bench sheet's blocks and entries, and what each entry asks for. The specs of `sheets` say what a sheet means.
#![tactic(auto)]

ghost use Rattle.std.specs.Prelude.{◌≡◌, length, Ok};
ghost use Rattle.sheets.specs.Sheet.{carried, stated_at, block_at, entry_at, request_at, words_from, loaded};
ghost use Rattle.sheets.specs.Counts.{capped, counted};

use model::{ByteAddress, Operation, WIDE_MAX_COUNT};
use numbers::{
    LARGEST, Numeral, Parsed, next_of, number, number_to, then_number, then_numbers, value_of,
};
use sheets::{MAX_ENTRIES, MAX_RIGHTS, MAX_TIMES, OPERATION, REPEAT, RIGHTS, Request, Stated};

// The repeats around an entry: at most these.
const MAX_DEPTH: u8 = 8;

// What a block counts that runs more entries than a sheet may.
const TOO_MANY: usize = MAX_ENTRIES as usize + 1;

// A program of more words carries none.
const MAX_CARRIED: u32 = 16;

const MAX_BYTE: u32 = 255;

// ---- entry 1

// How many words stand after n.
#[tactic(auto, unfolding(sheets::specs::Sheet::carried))]
fn carries(o: Operation) -> u32
    ensures { result ≡ carried o }
{
    let few = o.count <= MAX_CARRIED;
    if places::is_program(o) & few {
        o.count
    } else {
        0
    }
}

// The entry whose tag stands before `at`.
#[tactic(auto, using(numbers::proofs::Laws::number_to_small, numbers::proofs::Laws::then_small))]
pub fn stated_at(s: &[u8], at: usize) -> Stated
    ensures { result ≡ stated_at s.now at }
{
    let kind = number_to(s, at, MAX_BYTE);
    let partition = then_number(s, kind, MAX_BYTE);
    let info = then_number(s, partition, MAX_BYTE);
    let address = then_number(s, info, LARGEST);
    let count = then_number(s, address, LARGEST);
    let op = Operation {
        kind: value_of(kind) as u8,
        partition: value_of(partition) as u8,
        info: value_of(info) as u8,
        address: ByteAddress(value_of(address)),
        count: value_of(count),
    };
    Stated {
        op,
        words: next_of(count),
        end: then_numbers(s, count, carries(op)),
    }
}

// ---- the readers: how many entries run, and the place after them

#[tactic(auto, unfolding(sheets::specs::Counts::capped))]
fn running(entries: usize, next: usize) -> Numeral
    ensures { result ≡ record { value = capped entries; next = next } }
{
    Numeral {
        value: entries.min(TOO_MANY) as u32,
        next,
    }
}

// The block that begins at `at`, inside `depth` repeats.
#[cycle(block_entry)]
#[tactic(auto, using(sheets::proofs::Counting::block_ways))]
pub fn block(s: &[u8], at: usize, depth: u8) -> Parsed
    ensures { result ≡ counted (block_at s.now at depth) }
{
    let tag = number(s, at)?;
    if tag.value == 0 {
        return Ok(tag);
    }
    let first = entry(s, at, tag.next, tag.value, depth)?;
    let rest = block(s, first.next, depth)?;
    Ok(running(first.value as usize + rest.value as usize, rest.next))
}

// The entry whose tag stands at `at`, the rest from `next` on.
#[cycle(block_entry)]
#[tactic(auto, using(sheets::proofs::Counting::entry_ways))]
fn entry(s: &[u8], at: usize, next: usize, tag: u32, depth: u8) -> Parsed
    ensures { result ≡ counted (entry_at s.now at next tag depth) }
{
    if tag == OPERATION {
        let end = stated_at(s, next).end?;
        return Ok(running(1, end.next));
    }
    if tag == RIGHTS {
        let rights = number_to(s, next, MAX_RIGHTS)?;
        return Ok(running(1, rights.next));
    }
    if tag == REPEAT {
        if depth < MAX_DEPTH {
            let times = number_to(s, next, MAX_TIMES)?;
            if times.value == 0 {
                return Err(next);
            }
            let body = block(s, times.next, depth + 1)?;
            return Ok(running(times.value as usize * body.value as usize, body.next));
        }
    }
    Err(at)
}

// ---- what the entry at a place asks for

#[tactic(auto, using(numbers::proofs::Laws::number_to_small), unfolding(sheets::specs::Sheet::request_at))]
pub fn request_at(s: &[u8], at: usize) -> Request
    ensures { result ≡ request_at s.now at }
{
    let tag = number(s, at);
    let next = next_of(tag);
    if value_of(tag) == RIGHTS {
        let rights = value_of(number_to(s, next, MAX_RIGHTS));
        return Request::Rights(rights as u8);
    }
    let stated = stated_at(s, next);
    Request::Whole {
        op: stated.op,
        words: stated.words,
    }
}

// The numbers from `at` on, one in each place of the row.
fn load(s: &[u8], at: usize, words: &mut [u32])
    ensures { words.new ≡ words_from s.now (length words.old) (Ok (record { value = 0; next = at })) }
{
    let mut last = Ok(Numeral { value: 0, next: at });
    for word in words.iter_mut() {
        last = then_number(s, last, LARGEST);
        *word = value_of(last);
    }
}

// The buffer for an operation whose carried words, if any, stand from `at` on.
#[tactic(auto, using(sheets::proofs::Loading::carried_few))]
pub fn loaded(s: &[u8], o: Operation, at: usize) -> [u32; WIDE_MAX_COUNT]
    ensures { result ≡ loaded s.now o at }
{
    let mut words = [0u32; WIDE_MAX_COUNT];
    let n = carries(o) as usize;
    load(s, at, &mut words[..n]);
    words
}
