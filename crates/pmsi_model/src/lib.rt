//! The vocabulary of pmsi: the types that every crate shares, and in `specs/` the written machine, which is what the
//! product's promises speak of.
#![tactic(auto)]

ghost use Rattle.std.specs.Prelude.{◌≡◌};
ghost use Rattle.pmsi_model.specs.Access.{kind_of, width_of};
ghost use Rattle.pmsi_model.specs.Bus.{kind_of_name};

pub mod examples;
mod image;
mod instr;
mod job;
pub mod laws;
pub mod limits;
mod lists;
mod port;
mod slot_table;
mod step;

pub use image::{Image, Piece};
pub use instr::{AmoOp, BranchOp, ImmOp, Instr, LoadOp, Reg, RegOp, StoreOp};
pub use job::{Geometry, Job};
pub use lists::{Bytes, Pieces, Sequence, Utf8Text, WordLists, Words};
pub use port::{BusPort, LineWords};
pub use slot_table::SlotTable;
use std::alloc::{AllocError, AllocFailed};
pub use step::Step;

/// What a request asks for: a copy to read, or the only copy, to write. An AMO is a write.
#[derive(Clone, Copy, Debug, PartialEq, Eq)]
pub enum Kind {
    Read,
    Write,
}

/// The state of a line that a core holds: readable and clean, or readable, writable and the only valid copy.
#[derive(Clone, Copy, Debug, PartialEq, Eq)]
pub enum Mode {
    Shared,
    Modified,
}

/// The name of a request on the bus: a read, a write, or a write by a core that holds the line shared.
#[derive(Clone, Copy, Debug, PartialEq, Eq)]
pub enum Name {
    GetS,
    GetM,
    Upg,
}

impl Name {
    /// What a request of this name asks for.
    pub fn kind(self) -> Kind
        ensures { result ≡ kind_of_name self }
    {
        match self {
            Name::GetS => Kind::Read,
            Name::GetM | Name::Upg => Kind::Write,
        }
    }
}

/// Which of its two duties a core does first in its next own slot, where both are possible.
#[derive(Clone, Copy, Debug, PartialEq, Eq)]
pub enum Turn {
    Request,
    WriteBack,
}

/// What the owner of a slot does on the bus. The number is the line's.
#[derive(Clone, Copy, Debug, PartialEq, Eq)]
pub enum Action {
    Idle,
    /// The request joins its line's queue.
    Post(Name, u32),
    /// The posted request is served.
    Fill(u32),
    /// The request is posted and served in the same slot.
    PostFill(Name, u32),
    /// The line is written back; the flag says that it stays shared.
    Back(u32, bool),
}

/// Why a core runs no further.
#[derive(Clone, Copy, Debug, PartialEq, Eq)]
pub enum Halt {
    /// ECALL, with the value of x10.
    Exit(u32),
    /// EBREAK.
    Break,
    /// A word that is no instruction.
    Illegal(u32),
    /// A pc past the end of the text.
    FetchRange(u32),
    /// A jump or taken branch to an address that isn't a multiple of four.
    JumpMisaligned(u32),
    /// An access at an address that isn't a multiple of its width.
    Misaligned(u32),
    /// An access at an address that isn't below the memory size.
    Range(u32),
}

#[derive(Clone, Copy, Debug, PartialEq, Eq)]
pub enum Status {
    Running,
    Halted(Halt),
}

#[derive(Clone, Copy, Debug, PartialEq, Eq)]
pub enum AccessOp {
    Load(LoadOp),
    Store(StoreOp),
    Amo(AmoOp),
}

impl AccessOp {
    /// How many bytes the access covers: 1, 2 or 4.
    pub fn width(self) -> u32
        ensures { result ≡ width_of self }
    {
        match self {
            AccessOp::Load(LoadOp::Lb | LoadOp::Lbu) | AccessOp::Store(StoreOp::Sb) => 1,
            AccessOp::Load(LoadOp::Lh | LoadOp::Lhu) | AccessOp::Store(StoreOp::Sh) => 2,
            _ => 4,
        }
    }

    /// A load is a read; a store is a write, and so is an atomic operation, which does both.
    pub fn kind(self) -> Kind
        ensures { result ≡ kind_of self }
    {
        match self {
            AccessOp::Load(_) => Kind::Read,
            AccessOp::Store(_) | AccessOp::Amo(_) => Kind::Write,
        }
    }
}

/// An access to memory: for a store `rd` is x0, for a load `operand` is 0.
#[derive(Clone, Copy, Debug, PartialEq, Eq)]
pub struct Access {
    pub op: AccessOp,
    pub rd: Reg,
    pub address: u32,
    pub operand: u32,
}

/// An outstanding miss: an access that waits for its line, from the slot of the miss on.
#[derive(Clone, Copy, Debug, PartialEq, Eq)]
pub struct Want {
    pub line: u32,
    pub kind: Kind,
    /// The slot of the miss.
    pub issue: u32,
    /// The slot in which the request was posted.
    pub post: Option<u32>,
    /// The modified line that has to be written back before the request can be posted.
    pub victim: Option<u32>,
    pub access: Access,
}

/// A request that was served; its slots are those of the miss, the post and the fill.
#[derive(Clone, Copy, Debug, PartialEq, Eq)]
pub struct Row {
    pub core: u32,
    pub line: u32,
    pub kind: Kind,
    pub issue: u32,
    pub post: u32,
    pub fill: u32,
}

/// A request that is still open.
#[derive(Clone, Copy, Debug, PartialEq, Eq)]
pub struct OpenRow {
    pub core: u32,
    pub line: u32,
    pub kind: Kind,
    pub issue: u32,
    pub post: Option<u32>,
}

/// An access that was done. `old` and `new` are the numbers that its bytes spell before and after, lowest byte first.
#[derive(Clone, Copy, Debug, PartialEq, Eq)]
pub struct Touch {
    pub slot: u32,
    pub core: u32,
    pub address: u32,
    pub width: u32,
    pub kind: Kind,
    pub old: u32,
    pub new: u32,
}

/// The state of a line in a core: the three stable ones of MSI, and the transient ones of a request or a write-back on
/// its way.
#[derive(Clone, Copy, Debug, PartialEq, Eq)]
pub enum State {
    /// Invalid: not held, and no request is posted.
    I,
    /// Shared, and no request is posted.
    S,
    /// Modified, and not to be written back.
    M,
    /// A read is posted, with no write behind it in the line's queue.
    ISD,
    /// A read is posted, with a write behind it.
    ISDI,
    /// A write is posted for a line that isn't held, with nothing behind it.
    IMD,
    /// The same, with reads alone behind it.
    IMDS,
    /// A write is posted, with a write behind it.
    IMDI,
    /// A write is posted for a line that is held shared, with nothing behind it.
    SMW,
    /// The same, with reads alone behind it.
    SMWS,
    /// Modified and to be written back, after which it would stay shared as things stand.
    MSWB,
    /// Modified and to be written back, after which it would be dropped as things stand.
    MIWB,
}

/// What is left in a line's queue after a fill: nothing, reads alone, or also a write.
#[derive(Clone, Copy, Debug, PartialEq, Eq)]
pub enum Behind {
    Nobody,
    Reads,
    Write,
}

/// What became of a request that was put on the bus.
#[derive(Clone, Copy, Debug, PartialEq, Eq)]
pub enum Posted {
    Queued,
    Filled,
}

/// What a machine keeps beside its rows: the actions of all slots, and the accesses.
#[derive(Clone, Copy, Debug, PartialEq, Eq)]
pub struct Keep {
    pub trace: bool,
    pub touches: bool,
}

/// Memory ran out.
#[derive(Clone, Copy, Debug, PartialEq, Eq)]
pub struct NoMemory;

impl From<AllocError> for NoMemory {
    fn from(_: AllocError) -> NoMemory {
        NoMemory
    }
}

impl<T: Drop> From<AllocFailed<T>> for NoMemory {
    fn from(_: AllocFailed<T>) -> NoMemory {
        NoMemory
    }
}
