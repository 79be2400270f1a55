// The expansion of a bench sheet: where the tags of the entries stand that it runs, in order, each repeat as often as it says.
#![tactic(auto)]

ghost use Rattle.std.specs.Prelude.{◌≡◌, cond, eqb};
ghost use Rattle.std.proofs.lemmas.List.Edits.{sets};
ghost use Rattle.numbers.specs.Number.{number_to};
ghost use Rattle.sheets.specs.Sheet.{stated_at, block_at, entry_at, places_of};
ghost use Rattle.expansions.specs.Laying.{Room, laid_by};

use numbers::{Parsed, next_of, number, number_to, value_of};
use sheets::{MAX_RIGHTS, MAX_TIMES, OPERATION, REPEAT, WIDE_MAX_ENTRIES};

// A place for each entry that may run: lent, and `Copy`, which a struct that is seen as a list of its first places can't be.
pub type Places = [usize; WIDE_MAX_ENTRIES];

// The place after a block or an entry, and how many places are laid.
#[derive(Clone, Copy)]
pub struct Laid {
    pub next: usize,
    pub count: usize,
}

// The last number of an entry that runs once.
fn last_number(s: &[u8], next: usize, tag: u32) -> Parsed
    ensures { result ≡ cond (eqb tag 1) (stated_at s.now next).end (number_to s.now 7 next) }
{
    if tag == OPERATION {
        sheet_entries::stated_at(s, next).end
    } else {
        number_to(s, next, MAX_RIGHTS)
    }
}

// The places of the tags that the block at `at` runs are laid into the row from place `n` on.
#[cycle(lay_block_lay_entry)]
fn lay_block(s: &[u8], at: usize, depth: u8, places: &mut Places, n: usize) -> Laid
    requires { Room (block_at s.now at depth) n }
    ensures { (places.new ≡ sets places.old n (places_of (block_at s.now at depth))) × (result ≡ laid_by (block_at s.now at depth) n) }
{
    let tag = number(s, at);
    let value = value_of(tag);
    let next = next_of(tag);
    if value == 0 {
        return Laid { next, count: n };
    }
    let first = lay_entry(s, at, next, value, depth, places, n);
    lay_block(s, first.next, depth, places, first.count)
}

// The same of an entry, whose tag stands at `at`. A block that lays nothing in its first turn is not read again.
#[cycle(lay_block_lay_entry)]
fn lay_entry(
    s: &[u8],
    at: usize,
    next: usize,
    tag: u32,
    depth: u8,
    places: &mut Places,
    n: usize,
) -> Laid
    requires { Room (entry_at s.now at next tag depth) n }
    ensures { (places.new ≡ sets places.old n (places_of (entry_at s.now at next tag depth))) × (result ≡ laid_by (entry_at s.now at next tag depth) n) }
{
    if tag == REPEAT {
        let times = number_to(s, next, MAX_TIMES);
        let k = value_of(times);
        let inner = next_of(times);
        let first = lay_block(s, inner, depth + 1, places, n);
        let end = first.next;
        let mut count = first.count;
        let mut again: u32 = 0;
        let further = k - 1;
        // Two tests, with an edit of each.
        while (again < further) & (n < count) {
            let more = lay_block(s, inner, depth + 1, places, count);
            count = more.count;
            again += 1;
        }
        return Laid { next: end, count };
    }
    let end = last_number(s, next, tag);
    places[n] = at;
    Laid {
        next: next_of(end),
        count: n + 1,
    }
}

// The places of the tags that a good sheet runs, from the front of the row on.
pub fn expand(s: &[u8], places: &mut Places)
    requires { Room (block_at s.now 0 0) 0 }
    ensures { places.new ≡ sets places.old 0 (places_of (block_at s.now 0 0)) }
{
    lay_block(s, 0, 0, places, 0);
}
