// What the calls tell, as the lines write it.
use calls::{Side, Step};
use model::{Answer, Decider, Movement, Refusal, Seeds};
use std::fmt;

// ---- answers

// An answer's number, 0 where the call is accepted, and who decided where it is 9.
#[derive(Clone, Copy)]
pub struct Answered {
    number: u8,
    decider: Option<Decider>,
}

// 255 names nobody.
fn decider_of(number: u8) -> Option<Decider> {
    match number {
        0..=7 => Some(Decider::Region(number)),
        8 => Some(Decider::Default),
        9 => Some(Decider::PageSetting),
        10 => Some(Decider::SeedLock),
        11 => Some(Decider::BankPermission),
        _ => None,
    }
}

impl Answered {
    pub fn ruled(number: u8, decider: u8) -> Self {
        Answered {
            number,
            decider: decider_of(decider),
        }
    }

    pub fn is_accepted(self) -> bool {
        self.number == 0
    }
}

impl From<Answer> for Answered {
    fn from(answer: Answer) -> Self {
        Answered::ruled(refusals::number_of(answer), refusals::reported(answer))
    }
}

impl From<Result<Option<Seeds>, Refusal>> for Answered {
    fn from(initialised: Result<Option<Seeds>, Refusal>) -> Self {
        Answered::from(initialised.map(|_| ()))
    }
}

impl fmt::Display for Answered {
    fn fmt<W: fmt::Write>(&self, f: &mut fmt::Formatter<W>) -> fmt::Result {
        write!(f, "{}", self.number)?;
        match self.decider {
            Some(Decider::Region(region)) => write!(f, " by region {region}"),
            Some(Decider::Default) => write!(f, " by default rights"),
            Some(Decider::PageSetting) => write!(f, " by page setting"),
            Some(Decider::SeedLock) => write!(f, " by seed lock"),
            Some(Decider::BankPermission) => write!(f, " by bank permission"),
            None => Ok(()),
        }
    }
}

// ---- words

// Of a host read.
#[derive(Clone, Copy)]
pub struct Fetched(Result<u32, Refusal>);

impl From<Result<u32, Refusal>> for Fetched {
    fn from(read: Result<u32, Refusal>) -> Self {
        Fetched(read)
    }
}

impl fmt::Display for Fetched {
    fn fmt<W: fmt::Write>(&self, f: &mut fmt::Formatter<W>) -> fmt::Result {
        let answer = Answered::from(self.0.map(|_| ()));
        write!(f, "{answer}, word 0x{:08x}", self.0.unwrap_or(0))
    }
}

// ---- bits

#[derive(Clone, Copy)]
pub struct Stepped(Result<Step, Refusal>);

impl Stepped {
    // The last word moves too.
    pub fn moves(self) -> bool {
        match self.0 {
            Ok(step) => matches!(step.movement, Movement::Moved | Movement::Finished),
            Err(_) => false,
        }
    }

    pub fn bits(self) -> u32 {
        match self.0 {
            Ok(step) => step.bits,
            Err(_) => 0,
        }
    }
}

impl From<Result<Step, Refusal>> for Stepped {
    fn from(stepped: Result<Step, Refusal>) -> Self {
        Stepped(stepped)
    }
}

impl fmt::Display for Stepped {
    fn fmt<W: fmt::Write>(&self, f: &mut fmt::Formatter<W>) -> fmt::Result {
        match self.0 {
            Ok(step) => {
                let movement = match step.movement {
                    Movement::Moved => "moved",
                    Movement::Finished => "finished",
                    Movement::Stalled => "stalled",
                };
                write!(f, "0, {movement}, {} bits", step.bits)
            }
            Err(refusal) => {
                let answer: Answer = Err(refusal);
                write!(f, "{}, none, 0 bits", Answered::from(answer))
            }
        }
    }
}

// Of a whole operation.
#[derive(Clone, Copy)]
pub struct Completed {
    pub answer: Answered,
    pub bits: u32,
}

impl From<Result<u32, Refusal>> for Completed {
    fn from(bits: Result<u32, Refusal>) -> Self {
        Completed {
            answer: Answered::from(bits.map(|_| ())),
            bits: bits.unwrap_or(0),
        }
    }
}

// ---- rounds

#[derive(Clone, Copy)]
pub struct Round(calls::Round);

impl From<calls::Round> for Round {
    fn from(round: calls::Round) -> Self {
        Round(round)
    }
}

impl fmt::Display for Round {
    fn fmt<W: fmt::Write>(&self, f: &mut fmt::Formatter<W>) -> fmt::Result {
        match self.0.host {
            Side::Unasked => write!(f, "host unasked {}", Fetched(Ok(0)))?,
            Side::Waiting => write!(f, "host waiting {}", Fetched(Ok(0)))?,
            Side::Served(read) => write!(f, "host served {}", Fetched(read))?,
        }
        match self.0.step {
            Side::Unasked => write!(f, "; step unasked 0, none, 0 bits"),
            Side::Waiting => write!(f, "; step waiting 0, stalled, 0 bits"),
            Side::Served(stepped) => write!(f, "; step served {}", Stepped(stepped)),
        }
    }
}
