// Check 1 on the state where it lies: whether the numbers stand for a valid state (01: ours).
#![tactic(auto)]

ghost use Rattle.std.specs.Prelude.{◌≡◌, ◌&&◌, ◌+◌, get_or, leb};
ghost use Rattle.model.specs.State.{flash};
ghost use Rattle.model.specs.Refusals.{ready_answer};
ghost use Rattle.model.specs.Valid.{all, region_fits, page_fits, queues_fit, progress_fits, work_fits, physical_fits, running_fits, valid, valid_with};
ghost use Rattle.registers.specs.Layout.{pages_at};
ghost use Rattle.registers.specs.Registers.{regions_of, info_of, stands_for, decode, every, region_encoded, setting_encoded};
ghost use Rattle.validity.specs.Rest.{rest_fits};

use model::{Answer, LOST_LIMIT, Progress, QUEUE_WORDS, Region, Work};
use registers::Registers;

// A region lies among this many pages.
fn ends_by(g: Region, limit: usize) -> bool
    ensures { result ≡ leb (g.first.0 + g.count) limit }
{
    let first = g.first;
    first.0 as usize + g.count as usize <= limit
}

// Of the tables, that each number stands for something and that it fits, in one look: no flag is past 1 and no rights past 7
// exactly if all of them together, bit by bit, are not.
fn regions_hold(s: &Registers) -> bool
    ensures { result ≡ (every (region_encoded s.now) 8 && all (region_fits (get_or s.now pages_at 0)) (regions_of s.now)) }
{
    let limit = 2 * (registers::pages(s) as usize);
    let mut ok = true;
    let mut flags = 0;
    let mut rights = 0;
    for i in 0..8 {
        let row = registers::region_row(s, i);
        flags |= row.flag;
        rights |= row.rights;
        ok &= ends_by(registers::region(s, i), limit);
    }
    ok & ((flags <= 1) & (rights <= 7))
}

fn pages_hold(s: &Registers) -> bool
    ensures { result ≡ (every (setting_encoded s.now) 26 && all page_fits (info_of s.now)) }
{
    let mut flags = 0;
    let mut rights = 0;
    for i in 0..26 {
        let row = registers::page_row(s, i);
        flags |= row.flag;
        rights |= row.rights;
    }
    (flags <= 1) & (rights <= 7)
}

#[tactic(auto, unfolding(registers::specs::Registers::stands_for))]
fn queues_fit(s: &Registers, ready: bool) -> bool
    ensures { result ≡ queues_fit ready (stands_for s.now).queues }
{
    let reads = registers::read_count(s);
    let programs = registers::program_count(s);
    let small = (reads <= QUEUE_WORDS) & (programs <= QUEUE_WORDS);
    let none = (reads == 0) & (programs == 0);
    small & (ready | none)
}

fn progress_fits(ready: bool, p: Progress) -> bool
    ensures { result ≡ progress_fits ready p }
{
    let busy = refusals::is_busy(p);
    ready | !busy
}

// What has been pushed is what has moved and what is queued: at most n words in all.
fn pushed_fits(moved: u32, queued: u32, count: u32) -> bool
    ensures { result ≡ leb (moved + queued) count }
{
    moved as usize + queued as usize <= count as usize
}

fn work_fits(s: &Registers, w: Work) -> bool
    ensures { result ≡ work_fits (stands_for s.now).setup (stands_for s.now).queues.programs w }
{
    let d = registers::pages(s);
    let queued = registers::program_count(s);
    let none = queued == 0;
    match w {
        Work::Read {
            op,
            moved,
            readable,
        } => {
            let left = (moved as usize) < places::total_words(d, op);
            let fits = answers::read_fits(s, op, readable);
            fits & (left & none)
        }
        Work::Program { op, moved } => {
            let left = (moved as usize) < places::total_words(d, op);
            let fits = answers::program_fits(s, op);
            let pushed = pushed_fits(moved, queued, op.count);
            fits & (left & pushed)
        }
        Work::Erase { op, moved } => {
            let page = places::is_page_erase(op);
            let bank = places::is_bank_erase(op);
            let left = (moved as usize) < places::total_words(d, op);
            let accepted = refusals::accepts(answers::operation_answer(s, op));
            (page | bank) & (left & (accepted & none))
        }
    }
}

fn running_fits(s: &Registers, p: Progress) -> bool
    ensures { result ≡ running_fits (stands_for s.now).setup (stands_for s.now).queues.programs p }
{
    match p {
        None => registers::program_count(s) == 0,
        Some(w) => work_fits(s, w),
    }
}

fn physical_fits(s: &Registers) -> bool
    ensures { result ≡ physical_fits (stands_for s.now).physical }
{
    let first = registers::lost(s, 0);
    let second = registers::lost(s, 1);
    (first <= LOST_LIMIT) & (second <= LOST_LIMIT)
}

// All but the tables of regions and pages.
fn rest_fits(s: &Registers) -> bool
    ensures { result ≡ rest_fits s.now }
{
    let physical = physical_fits(s);
    let phase = registers::phase(s);
    let progress = registers::progress(s);
    let errors = registers::errors(s);
    let ready = refusals::is_ready(phase);
    let pages = geometry::pages_fit(registers::pages(s));
    let other = bounds::rights_fit(registers::default_rights(s));
    let told = bounds::errors_fit(errors);
    let queued = queues_fit(s, ready);
    let held = progress_fits(ready, progress);
    let running = running_fits(s, progress);
    pages & (other & (told & (queued & (held & (physical & running)))))
}

pub fn valid(s: &Registers) -> bool
    ensures { result ≡ valid (decode s.now) }
{
    let plain = registers::plain_encoded(s);
    let running = registers::progress_encoded(s);
    let regions = regions_hold(s);
    let pages = pages_hold(s);
    if plain & (running & (regions & pages)) {
        return rest_fits(s);
    }
    false
}

// Check 1 of a call that is lent the image.
pub fn valid_with(s: &Registers, image: &[u32]) -> bool
    ensures { result ≡ valid_with (decode s.now) (flash image.now) }
{
    if valid(s) {
        return image.len() == geometry::image_words(registers::pages(s));
    }
    false
}

// Checks 1, 2 and 3 of a call that is lent no image, and of one that is.
pub fn ready(s: &Registers) -> Answer
    ensures { result ≡ ready_answer (valid (decode s.now)) (decode s.now).phase }
{
    let own = valid(s);
    refusals::ready_answer(own, registers::phase(s))
}

pub fn ready_with(s: &Registers, image: &[u32]) -> Answer
    ensures { result ≡ ready_answer (valid_with (decode s.now) (flash image.now)) (decode s.now).phase }
{
    let both = valid_with(s, image);
    refusals::ready_answer(both, registers::phase(s))
}
