// Rounds on registers: host and step where both want a bank.
#![tactic(auto)]

ghost use Rattle.std.specs.Prelude.{◌≡◌, true, ◌+◌, ◌≤◌, ltb, get_or};
ghost use Rattle.model.specs.State.{flash};
ghost use Rattle.model.specs.Valid.{lost_limit};
ghost use Rattle.model.specs.Rounds.{goes, would_move, next_bank, host_alone, step_alone, host_goes, step_goes, contest, both_go, round};
ghost use Rattle.registers.specs.Layout.{lost_from};
ghost use Rattle.registers.specs.Registers.{progress_at, stands_for, decode};
ghost use Rattle.calls.specs.Calls.{told_round, round_left, round_in};
ghost use Rattle.validity.specs.Ready.{Ready, Judged};
ghost use Rattle.rounds.specs.Turns.{Going, Contested, contends, side_answer, refused_both};

use calls::{Round, Side};
use model::{ByteAddress, HostRequest, LOST_LIMIT, Refusal};
use registers::Registers;

// ---- who competes for a bank

// A step that would wait does not compete, nor does one with nothing in progress.
#[tactic(auto, unfolding(registers::specs::Registers::stands_for))]
fn would_move(s: &Registers) -> bool
    ensures { result ≡ goes (stands_for s.now).queues (progress_at s.now) }
{
    match registers::progress(s) {
        None => false,
        Some(work) => !steps::stalls(s, work),
    }
}

// The bank of the word that the step would move.
fn next_bank(s: &Registers) -> u32
    requires { Going s.now }
    ensures { (result ≡ next_bank (decode s.now)) × (result ≤ 1) }
{
    let d = registers::pages(s);
    let op = registers::operation(s);
    let moved = registers::moved(s);
    geometry::bank_of_word(d, places::place_of(d, op, moved))
}

fn competes(s: &Registers, at: ByteAddress) -> bool
    requires { Judged s.now }
    ensures { result ≡ contends s.now at }
{
    if would_move(s) {
        let host = geometry::bank_of(registers::pages(s), geometry::page_of(at));
        return host == next_bank(s);
    }
    false
}

// ---- who is served

// A lone turn leaves the count.
fn step_alone(s: &mut Registers, image: &mut [u32]) -> Round
    ensures answer { side_answer result.host ≡ (step_alone (decode s.old) (flash image.old)).result.host.answer }
    ensures left { record { told = told_round result; registers = s.new; flash = flash image.new } ≡ round_left s.old (step_alone (decode s.old) (flash image.old)) }
{
    let stepped = steps::step(s, image);
    Round {
        host: Side::Unasked,
        step: Side::Served(stepped),
    }
}

#[tactic(auto, unfolding(model::specs::Host::host_read))]
fn host_alone(s: &Registers, image: &[u32], at: ByteAddress) -> Round
    ensures answer { side_answer result.host ≡ (host_alone (decode s.now) (flash image.now) at).result.host.answer }
    ensures left { record { told = told_round result; registers = s.now; flash = flash image.now } ≡ round_left s.now (host_alone (decode s.now) (flash image.now) at) }
{
    let word = host::host_read(s, image, at);
    Round {
        host: Side::Served(word),
        step: Side::Unasked,
    }
}

// The host goes first, and its bank's lost count rises by one.
#[tactic(auto, unfolding(model::specs::Host::host_read))]
fn host_goes(s: &mut Registers, image: &[u32], at: ByteAddress, bank: usize) -> Round
    requires contested { Contested s.old (flash image.now) bank }
    requires below { ltb (get_or s.old (lost_from + bank) 0) lost_limit ≡ true }
    ensures answer { side_answer result.host ≡ (host_goes (decode s.old) (flash image.now) at).result.host.answer }
    ensures left { record { told = told_round result; registers = s.new; flash = flash image.now } ≡ round_left s.old (host_goes (decode s.old) (flash image.now) at) }
{
    let word = host::ready_read(s, image, at);
    let lost = registers::lost(s, bank);
    registers::put_lost(s, bank, lost + 1);
    Round {
        host: Side::Served(word),
        step: Side::Waiting,
    }
}

// The controller goes instead, and the count returns to 0.
fn step_goes(s: &mut Registers, image: &mut [u32], bank: usize) -> Round
    requires { Contested s.old (flash image.old) bank }
    ensures answer { side_answer result.host ≡ (step_goes (decode s.old) (flash image.old)).result.host.answer }
    ensures left { record { told = told_round result; registers = s.new; flash = flash image.new } ≡ round_left s.old (step_goes (decode s.old) (flash image.old)) }
{
    let stepped = steps::ready_step(s, image);
    registers::put_lost(s, bank, 0);
    Round {
        host: Side::Waiting,
        step: Side::Served(stepped),
    }
}

fn contest(s: &mut Registers, image: &mut [u32], at: ByteAddress) -> Round
    requires { would_move (decode s.old) (flash image.old) ≡ true }
    ensures answer { side_answer result.host ≡ (contest (decode s.old) (flash image.old) at).result.host.answer }
    ensures left { record { told = told_round result; registers = s.new; flash = flash image.new } ≡ round_left s.old (contest (decode s.old) (flash image.old) at) }
{
    let bank = next_bank(s) as usize;
    if registers::lost(s, bank) < LOST_LIMIT {
        return host_goes(s, image, at, bank);
    }
    step_goes(s, image, bank)
}

// Both are served, host first.
#[tactic(auto, unfolding(model::specs::Host::host_read))]
fn both_go(s: &mut Registers, image: &mut [u32], at: ByteAddress) -> Round
    requires { Ready s.old (flash image.old) }
    ensures answer { side_answer result.host ≡ (both_go (decode s.old) (flash image.old) at).result.host.answer }
    ensures left { record { told = told_round result; registers = s.new; flash = flash image.new } ≡ round_left s.old (both_go (decode s.old) (flash image.old) at) }
{
    let word = host::ready_read(s, image, at);
    let stepped = steps::ready_step(s, image);
    Round {
        host: Side::Served(word),
        step: Side::Served(stepped),
    }
}

// Checks 1 to 3 refuse both.
fn both_refused(refusal: Refusal) -> Round
    ensures answer { side_answer result.host ≡ Err refusal }
    ensures told { told_round result ≡ refused_both (Err refusal) }
{
    Round {
        host: Side::Served(Err(refusal)),
        step: Side::Served(Err(refusal)),
    }
}

// Both are asked: checks 1 to 3 are made once, for both.
#[tactic(auto, using(crate::proofs::Served::asked_refused, crate::proofs::Served::asked_ready))]
fn both_asked(s: &mut Registers, image: &mut [u32], at: ByteAddress) -> Round
    ensures answer { side_answer result.host ≡ (round (decode s.old) (flash image.old) (Some at) true).result.host.answer }
    ensures left { record { told = told_round result; registers = s.new; flash = flash image.new } ≡ round_in s.old (flash image.old) (Some at) true }
{
    match validity::ready_with(s, image) {
        Err(refusal) => both_refused(refusal),
        Ok(()) => {
            if competes(s, at) {
                contest(s, image, at)
            } else {
                both_go(s, image, at)
            }
        }
    }
}

// What the host asks, and whether the step is asked.
#[tactic(auto, unfolding(calls::specs::Calls::round_in, model::specs::Rounds::round))]
pub fn round(s: &mut Registers, image: &mut [u32], host: HostRequest, step: bool) -> Round
    ensures answer { side_answer result.host ≡ (round (decode s.old) (flash image.old) host step).result.host.answer }
    ensures left { record { told = told_round result; registers = s.new; flash = flash image.new } ≡ round_in s.old (flash image.old) host step }
{
    match (host, step) {
        (None, false) => Round {
            host: Side::Unasked,
            step: Side::Unasked,
        },
        (None, true) => step_alone(s, image),
        (Some(at), false) => host_alone(s, image, at),
        (Some(at), true) => both_asked(s, image, at),
    }
}
