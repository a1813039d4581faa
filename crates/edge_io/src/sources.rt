//! Where bytes come from.

ghost use Rattle.std.specs.Prelude.{◌≡◌, ◌≤◌, ◌<◌, ◌+◌, ℕ, List, [], length, take, IfOk, IfSome, OnErr, IsErrOf};
ghost use Rattle.std.specs.declared.option.Option.{Option};
ghost use Rattle.octets.specs.Causes.{HasCause, each};
ghost use Rattle.octets.specs.Content.{with_front};
ghost use Rattle.edge_io.specs.Read.{HasMore, HasRead, IsAtEnd, read_failed};

use octets::{Memory, Octets};
use std::alloc::Global;

/// The object that was called counted a fault.
#[derive(Debug, Clone, Copy, PartialEq, Eq, Drop)]
pub struct Failed;

/// Why a source was not read to its end.
#[derive(Debug, Clone, Copy, PartialEq, Eq, Drop)]
pub enum ReadFault {
    /// More bytes were there than were asked for.
    TooLong,
    /// The source failed.
    Failed,
    Memory,
}

impl From<Failed> for ReadFault {
    ghost use Rattle.edge_io.specs.declared.sources.ReadFault.TheVariants as fault;

    ghost from_gives = { λ _ e. e ≡ fault.Failed };

    fn from(_error: Failed) -> ReadFault {
        ReadFault::Failed
    }
}

impl From<Memory> for ReadFault {
    ghost use Rattle.edge_io.specs.declared.sources.ReadFault.TheVariants as fault;

    ghost from_gives = { λ _ e. e ≡ fault.Memory };

    fn from(_error: Memory) -> ReadFault {
        ReadFault::Memory
    }
}

/// Where bytes come from.
pub trait Source {
    /// The bytes that are left to read, where the source tells them.
    ghost left: { Self → Option (List ℕ) };

    /// How many calls failed. It never falls, and stands still at 2^64 - 1.
    ghost faults: { Self → ℕ };

    /// Reads bytes into the front of `buf` and answers how many. 0 for a buffer that is not empty means the
    /// end of the input. After `Failed` what is left is as before.
    fn read(&mut self, buf: &mut [u8]) -> Result<usize, Failed>
        ensures bound { IfOk result (λ count. count ≤ length buf.new) }
        ensures bytes { IfOk result (λ count. left self.old ≡ with_front (take count buf.new) (left self.new)) }
        ensures end { IfOk result (λ count. count ≡ 0 → 0 < length buf.new → IsAtEnd (left self.old)) }
        ensures failed { OnErr result (left self.new ≡ left self.old) }
        ensures cause { HasCause each (faults self.old) (faults self.new) result };
}

// How many bytes to ask for where so many more are taken: one more than these, or a buffer's length.
fn piece_len(room: usize) -> usize
    ensures some { 0 < result }
    ensures fits { result ≤ 4096 }
    ensures near { result ≤ room + 1 }
{
    if room < 4096 { room + 1 } else { 4096 }
}

/// Reads a source to its end. `TooLong` comes exactly where more than `max` bytes were there, and then one more
/// than these was taken; `Failed` exactly where the source counted a fault. After `Failed` and want of memory at
/// most `max` bytes were taken. What was taken is gone after a refusal.
pub fn read_all<S: Source>(alloc: Global, source: &mut S, max: usize) -> Result<Octets, ReadFault>
    ensures bytes { IfOk result (λ bytes. S.left source.old ≡ with_front bytes (S.left source.new)) }
    ensures end { IfOk result (λ _. IsAtEnd (S.left source.new)) }
    ensures short { IfOk result (λ bytes. length bytes ≤ max) }
    ensures too_long { IsErrOf result ReadFault.TooLong → HasMore max (S.left source.old) (S.left source.new) }
    ensures failed { IsErrOf result ReadFault.Failed → HasRead max (S.left source.old) (S.left source.new) }
    ensures memory { IsErrOf result ReadFault.Memory → HasRead max (S.left source.old) (S.left source.new) }
    ensures cause { HasCause read_failed (S.faults source.old) (S.faults source.new) result }
{
    let mut bytes = Octets::new(alloc);
    let mut buffer = [0; 4096];
    'pieces: loop {
        let (piece, _) = buffer.split_at_mut(piece_len(max - bytes.len()));
        let count = source.read(piece)?;
        if count == 0 {
            return Ok(bytes);
        }
        if count > max - bytes.len() {
            return Err(ReadFault::TooLong);
        }
        bytes.append(&piece[..count])?;
    }
}
