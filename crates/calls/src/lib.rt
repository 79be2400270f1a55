// What C and Rust hand in and what the calls hand back: small structs of numbers. specs/Calls.antt says what each call tells
// and leaves.
#![tactic(auto)]

ghost use Rattle.std.specs.Prelude.{◌≡◌};
ghost use Rattle.model.specs.Refusals.{number_of, reported};
ghost use Rattle.registers.specs.Registers.{is_on};
ghost use Rattle.calls.specs.Asked.{byte_of, inputs_of, region_of, setting_of, operation_of, host_request_of};
ghost use Rattle.calls.specs.Calls.{answer_of, or_zero, told_answer, told_word, told_host_word, told_step, told_bits, told_start, told_seeds, seeds_or_none, host_turn_told, told_host_turn, told_step_turn, told_round, movement_number};

use model::{
    Answer, ByteAddress, HostRequest, Inputs, Movement, Operation, Page, PageSetting, Refusal,
    Region, Seeds,
};

// ---- what is handed in

#[repr(C)]
#[derive(Clone, Copy)]
pub struct AskedRegion {
    pub first: u32,
    pub count: u32,
    pub on: u32,
    pub rights: u32,
}

#[repr(C)]
#[derive(Clone, Copy)]
pub struct AskedSetting {
    pub on: u32,
    pub rights: u32,
}

#[repr(C)]
#[derive(Clone, Copy)]
pub struct AskedOperation {
    pub address: u32,
    pub count: u32,
    pub kind: u32,
    pub partition: u32,
    pub info: u32,
}

pub fn flag(x: u32) -> bool
    ensures { result ≡ is_on x }
{
    x != 0
}

// A number that no byte holds counts as 255.
pub fn byte(x: u32) -> u8
    ensures { result ≡ byte_of x }
{
    u8::try_from(x).unwrap_or(255)
}

pub fn inputs(provision: u32, locked: u32) -> Inputs
    ensures { result ≡ inputs_of provision locked }
{
    Inputs {
        provision: flag(provision),
        locked: flag(locked),
    }
}

impl From<AskedRegion> for Region {
    ghost from_gives = { λ g r. r ≡ region_of g };

    fn from(g: AskedRegion) -> Region {
        Region {
            on: flag(g.on),
            first: Page(g.first),
            count: g.count,
            rights: byte(g.rights),
        }
    }
}

impl From<AskedSetting> for PageSetting {
    ghost from_gives = { λ p r. r ≡ setting_of p };

    fn from(p: AskedSetting) -> PageSetting {
        PageSetting {
            on: flag(p.on),
            rights: byte(p.rights),
        }
    }
}

impl From<AskedOperation> for Operation {
    ghost from_gives = { λ o r. r ≡ operation_of o };

    fn from(o: AskedOperation) -> Operation {
        Operation {
            kind: byte(o.kind),
            partition: byte(o.partition),
            info: byte(o.info),
            address: ByteAddress(o.address),
            count: o.count,
        }
    }
}

// What the host asks in a round: an address is looked at only if it asks.
pub fn host_request(asks: u32, address: u32) -> HostRequest
    ensures { result ≡ host_request_of asks address }
{
    flag(asks).then_some(ByteAddress(address))
}

// ---- what is handed back

// `decider` stands beside every answer that can be 9: it is the number of who decided, or 255.
#[repr(C)]
#[derive(Clone, Copy)]
pub struct ToldAnswer {
    pub answer: u32,
    pub decider: u32,
}

// Of a pop, and of a host read.
#[repr(C)]
#[derive(Clone, Copy)]
pub struct ToldWord {
    pub answer: u32,
    pub word: u32,
}

#[repr(C)]
#[derive(Clone, Copy)]
pub struct ToldHostWord {
    pub answer: u32,
    pub decider: u32,
    pub word: u32,
}

#[repr(C)]
#[derive(Clone, Copy)]
pub struct ToldStep {
    pub answer: u32,
    pub movement: u32,
    pub bits: u32,
}

#[repr(C)]
#[derive(Clone, Copy)]
pub struct ToldBits {
    pub answer: u32,
    pub decider: u32,
    pub bits: u32,
}

// What a round tells the host and the step.
#[repr(C)]
#[derive(Clone, Copy)]
pub struct ToldHostTurn {
    pub turn: u32,
    pub answer: u32,
    pub decider: u32,
    pub word: u32,
}

#[repr(C)]
#[derive(Clone, Copy)]
pub struct ToldStepTurn {
    pub turn: u32,
    pub answer: u32,
    pub movement: u32,
    pub bits: u32,
}

#[repr(C)]
#[derive(Clone, Copy)]
pub struct ToldRound {
    pub host: ToldHostTurn,
    pub step: ToldStepTurn,
}

// Where a view starts in the image.
#[repr(C)]
#[derive(Clone, Copy)]
pub struct ToldStart {
    pub answer: u32,
    pub decider: u32,
    pub start: u32,
}

// `given` is 1 if the seeds were handed out, else 0.
#[repr(C)]
#[derive(Clone, Copy)]
pub struct ToldSeeds {
    pub answer: u32,
    pub creator: [u32; 8],
    pub owner: [u32; 8],
    pub given: u32,
}

// What a step that is not refused did, and how many bits it changed.
#[derive(Clone, Copy)]
pub struct Step {
    pub movement: Movement,
    pub bits: u32,
}

// A side of a round: it asked nothing, waits for its turn, or was answered as by its own call.
#[derive(Clone, Copy)]
pub enum Side<T> {
    Unasked,
    Waiting,
    Served(T),
}

#[derive(Clone, Copy)]
pub struct Round {
    pub host: Side<Result<u32, Refusal>>,
    pub step: Side<Result<Step, Refusal>>,
}

// ---- and as C is told it

pub fn number(a: Answer) -> u32
    ensures { result ≡ number_of a }
{
    refusals::number_of(a).into()
}

pub fn decider(a: Answer) -> u32
    ensures { result ≡ reported a }
{
    refusals::reported(a).into()
}

// 0 where no step was made.
pub fn movement_number(m: Option<Movement>) -> u32
    ensures { result ≡ movement_number m }
{
    match m {
        None => 0,
        Some(Movement::Moved) => 1,
        Some(Movement::Finished) => 2,
        Some(Movement::Stalled) => 3,
    }
}

impl From<Answer> for ToldAnswer {
    ghost from_gives = { λ a r. r ≡ told_answer a };

    fn from(a: Answer) -> ToldAnswer {
        ToldAnswer {
            answer: number(a),
            decider: decider(a),
        }
    }
}

impl From<Result<u32, Refusal>> for ToldWord {
    ghost from_gives = { λ a r. r ≡ told_word a };

    fn from(fetched: Result<u32, Refusal>) -> ToldWord {
        ToldWord {
            answer: number(fetched.map(|_| ())),
            word: fetched.unwrap_or(0),
        }
    }
}

impl From<Result<u32, Refusal>> for ToldHostWord {
    ghost from_gives = { λ a r. r ≡ told_host_word (answer_of a) (or_zero a) };

    fn from(read: Result<u32, Refusal>) -> ToldHostWord {
        let answer = read.map(|_| ());
        ToldHostWord {
            answer: number(answer),
            decider: decider(answer),
            word: read.unwrap_or(0),
        }
    }
}

impl From<Result<Step, Refusal>> for ToldStep {
    ghost from_gives = { λ a r. r ≡ told_step a };

    fn from(stepped: Result<Step, Refusal>) -> ToldStep {
        match stepped {
            Ok(step) => ToldStep {
                answer: 0,
                movement: movement_number(Some(step.movement)),
                bits: step.bits,
            },
            Err(refusal) => ToldStep {
                answer: number(Err(refusal)),
                movement: movement_number(None),
                bits: 0,
            },
        }
    }
}

impl From<Result<u32, Refusal>> for ToldBits {
    ghost from_gives = { λ a r. r ≡ told_bits (answer_of a) (or_zero a) };

    fn from(bits: Result<u32, Refusal>) -> ToldBits {
        let answer = bits.map(|_| ());
        ToldBits {
            answer: number(answer),
            decider: decider(answer),
            bits: bits.unwrap_or(0),
        }
    }
}

impl From<Result<u32, Refusal>> for ToldStart {
    ghost from_gives = { λ a r. r ≡ told_start (answer_of a) (or_zero a) };

    fn from(start: Result<u32, Refusal>) -> ToldStart {
        let answer = start.map(|_| ());
        ToldStart {
            answer: number(answer),
            decider: decider(answer),
            start: start.unwrap_or(0),
        }
    }
}

impl From<Result<Option<Seeds>, Refusal>> for ToldSeeds {
    ghost from_gives = { λ a r. r ≡ told_seeds (answer_of a) (seeds_or_none a) };

    fn from(initialised: Result<Option<Seeds>, Refusal>) -> ToldSeeds {
        let answer = number(initialised.map(|_| ()));
        match initialised {
            Ok(Some(seeds)) => {
                let creator = seeds.creator;
                let owner = seeds.owner;
                ToldSeeds {
                    answer,
                    creator,
                    owner,
                    given: 1,
                }
            }
            _ => ToldSeeds {
                answer,
                creator: [0u32; 8],
                owner: [0u32; 8],
                given: 0,
            },
        }
    }
}

impl From<Side<Result<u32, Refusal>>> for ToldHostTurn {
    ghost from_gives = { λ t r. r ≡ told_host_turn t };

    fn from(turn: Side<Result<u32, Refusal>>) -> ToldHostTurn {
        match turn {
            Side::Unasked => host_turn(0, Ok(0)),
            Side::Waiting => host_turn(1, Ok(0)),
            Side::Served(fetched) => host_turn(2, fetched),
        }
    }
}

fn host_turn(turn: u32, fetched: Result<u32, Refusal>) -> ToldHostTurn
    ensures { result ≡ host_turn_told turn fetched }
{
    let told = ToldHostWord::from(fetched);
    ToldHostTurn {
        turn,
        answer: told.answer,
        decider: told.decider,
        word: told.word,
    }
}

impl From<Side<Result<Step, Refusal>>> for ToldStepTurn {
    ghost from_gives = { λ t r. r ≡ told_step_turn t };

    fn from(turn: Side<Result<Step, Refusal>>) -> ToldStepTurn {
        match turn {
            Side::Unasked => ToldStepTurn {
                turn: 0,
                answer: 0,
                movement: 0,
                bits: 0,
            },
            Side::Waiting => ToldStepTurn {
                turn: 1,
                answer: 0,
                movement: movement_number(Some(Movement::Stalled)),
                bits: 0,
            },
            Side::Served(stepped) => {
                let told = ToldStep::from(stepped);
                ToldStepTurn {
                    turn: 2,
                    answer: told.answer,
                    movement: told.movement,
                    bits: told.bits,
                }
            }
        }
    }
}

impl From<Round> for ToldRound {
    ghost from_gives = { λ a r. r ≡ told_round a };

    fn from(round: Round) -> ToldRound {
        ToldRound {
            host: round.host.into(),
            step: round.step.into(),
        }
    }
}
