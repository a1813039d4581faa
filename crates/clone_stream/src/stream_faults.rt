//! Why a stream is refused.

ghost use Rattle.std.specs.Prelude.{◌≡◌, ◌↔◌, IsTrue};
ghost use Rattle.clone_stream.specs.Taking.{IsOfSource};
ghost use Rattle.clone_stream.specs.Faults.{IsCut, fault_number, from_break, from_exact, from_keeper, from_line};

use buffered_reader::{ExactFault, LineFault};
use git_object::ObjectId;
use keeper_api::KeeperFault;
use octets::Memory;

/// Why a stream is refused. The first place that is wrong decides; `NotEmpty` is tried first.
#[derive(Clone, Copy, Debug, PartialEq, Eq)]
pub enum StreamFault {
    /// A line is none that may stand there, or a byte is not the line feed that is wanted; the offset of the
    /// line or the byte.
    BadLine { at: u64 },
    /// An object stands under another id than its own.
    IdDiffers { id: ObjectId, found: ObjectId },
    /// An id or a name does not come after the one before, or an object stands after a reference; the offset
    /// of its line.
    Order { at: u64 },
    /// An object's body has more than 16 MiB, or the stream more than 1 GiB; the limit in bytes.
    TooLarge { limit: u64 },
    /// The input ends before the line `end`; its length.
    Truncated { at: u64 },
    /// The source failed.
    SourceFailed,
    /// The keeper failed.
    KeeperFailed,
    /// The keeper holds something.
    NotEmpty,
    Memory,
}

impl StreamFault {
    /// The refusal's number, from 1; 0 for want of memory, which has none.
    pub fn number(&self) -> u8
        ensures { result ≡ fault_number self.now }
    {
        match self {
            StreamFault::BadLine { at: _ } => 1,
            StreamFault::IdDiffers { id: _, found: _ } => 2,
            StreamFault::Order { at: _ } => 3,
            StreamFault::TooLarge { limit: _ } => 4,
            StreamFault::Truncated { at: _ } => 5,
            StreamFault::SourceFailed => 6,
            StreamFault::KeeperFailed => 7,
            StreamFault::NotEmpty => 8,
            StreamFault::Memory => 0,
        }
    }
}

impl From<KeeperFault> for StreamFault {
    ghost from_gives = { λ e f. f ≡ from_keeper e };

    fn from(error: KeeperFault) -> StreamFault {
        match error {
            KeeperFault::Failed => StreamFault::KeeperFailed,
            KeeperFault::Memory => StreamFault::Memory,
        }
    }
}

/// What breaks a stream, where reading meets it.
#[derive(Clone, Copy, Debug, PartialEq, Eq)]
pub enum Break {
    BadLine { at: u64 },
    IdDiffers { id: ObjectId, found: ObjectId },
    Order { at: u64 },
    TooLarge { limit: u64 },
    /// The input ended after so many bytes.
    Cut { at: u64 },
    /// The source failed after so many bytes.
    Failed { at: u64 },
    Memory,
}

impl From<Memory> for Break {
    ghost use Rattle.clone_stream.specs.declared.stream_faults.Break.TheVariants as break_;

    ghost from_gives = { λ _ e. e ≡ break_.Memory };

    fn from(_error: Memory) -> Break {
        Break::Memory
    }
}

/// What a line that was not read is, where it begins at a place and so many bytes were taken.
pub fn of_line(at: u64, taken: u64, fault: LineFault) -> Break
    ensures { result ≡ from_line at taken fault }
{
    match fault {
        LineFault::Long => Break::BadLine { at },
        LineFault::Cut => Break::Cut { at: taken },
        LineFault::Failed => Break::Failed { at: taken },
    }
}

/// What a body that was not read is, where so many bytes were taken.
pub fn of_exact(taken: u64, fault: ExactFault) -> Break
    ensures { result ≡ from_exact taken fault }
{
    match fault {
        ExactFault::Cut => Break::Cut { at: taken },
        ExactFault::Failed => Break::Failed { at: taken },
        ExactFault::Memory => Break::Memory,
    }
}

/// Whether the input ended.
pub fn is_cut(fault: &Break) -> bool
    ensures { IsTrue result ↔ IsCut fault.now }
{
    match fault {
        Break::Cut { at: _ } => true,
        _ => false,
    }
}

/// The refusal that a break is.
pub fn of_break(fault: &Break) -> StreamFault
    ensures value { result ≡ from_break fault.now }
    ensures no_keeper { IsOfSource result }
{
    match fault {
        Break::BadLine { at } => StreamFault::BadLine { at: *at },
        Break::IdDiffers { id, found } => StreamFault::IdDiffers {
            id: *id,
            found: *found,
        },
        Break::Order { at } => StreamFault::Order { at: *at },
        Break::TooLarge { limit } => StreamFault::TooLarge { limit: *limit },
        Break::Cut { at } => StreamFault::Truncated { at: *at },
        Break::Failed { at: _ } => StreamFault::SourceFailed,
        Break::Memory => StreamFault::Memory,
    }
}
