// Operations as a bench engineer writes them.
use model::{ByteAddress, Operation};
use std::fmt;

#[derive(Clone, Copy)]
pub enum Kind {
    Read,
    Program,
    PageErase,
    BankErase,
    Unknown(u8),
}

impl From<Kind> for u8 {
    fn from(kind: Kind) -> u8 {
        match kind {
            Kind::Read => 0,
            Kind::Program => 1,
            Kind::PageErase => 2,
            Kind::BankErase => 3,
            Kind::Unknown(number) => number,
        }
    }
}

impl fmt::Display for Kind {
    fn fmt<W: fmt::Write>(&self, f: &mut fmt::Formatter<W>) -> fmt::Result {
        match self {
            Kind::Read => write!(f, "read"),
            Kind::Program => write!(f, "program"),
            Kind::PageErase => write!(f, "page erase"),
            Kind::BankErase => write!(f, "bank erase"),
            Kind::Unknown(number) => write!(f, "kind {number}"),
        }
    }
}

// The data pages, or the information pages of a type.
#[derive(Clone, Copy)]
pub enum Partition {
    Data,
    Information(u8),
}

#[derive(Clone, Copy)]
pub struct Asked {
    kind: Kind,
    partition: Partition,
    address: u32,
    count: u32,
}

pub fn data(kind: Kind, address: u32, count: u32) -> Asked {
    Asked {
        kind,
        partition: Partition::Data,
        address,
        count,
    }
}

pub fn information(kind: Kind, info: u8, address: u32, count: u32) -> Asked {
    Asked {
        kind,
        partition: Partition::Information(info),
        address,
        count,
    }
}

impl From<Asked> for Operation {
    fn from(asked: Asked) -> Operation {
        let (partition, info) = match asked.partition {
            Partition::Data => (0, 0),
            Partition::Information(info) => (1, info),
        };
        Operation {
            kind: u8::from(asked.kind),
            partition,
            info,
            address: ByteAddress(asked.address),
            count: asked.count,
        }
    }
}

// Data operations and bank erases ignore the type, and erases n.
impl fmt::Display for Asked {
    fn fmt<W: fmt::Write>(&self, f: &mut fmt::Formatter<W>) -> fmt::Result {
        write!(f, "{}", self.kind)?;
        match (self.kind, self.partition) {
            (_, Partition::Data) => {}
            (Kind::BankErase, Partition::Information(_)) => write!(f, " with information")?,
            (_, Partition::Information(info)) => write!(f, " of type {info}")?,
        }
        write!(f, " at 0x{:04x}", self.address)?;
        match self.kind {
            Kind::Read | Kind::Program => write!(f, ", n={}", self.count),
            _ => Ok(()),
        }
    }
}
