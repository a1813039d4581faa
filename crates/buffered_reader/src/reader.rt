//! The reader, and the calls that touch its buffer.

ghost use Rattle.std.specs.Prelude.{◌≡◌, ◌≢◌, ◌≤◌, ◌<◌, ◌+◌, ◌-◌, ◌⊎◌, ◌↔◌};
ghost use Rattle.std.specs.Prelude.{◌++◌, ◌∷◌, [], ℕ, List, Option, length};
ghost use Rattle.std.specs.Prelude.{take, drop, min, IfOk, IfSome, IfNone, IsTrue, OnErr, false};
ghost use Rattle.octets.specs.Causes.{HasCause, each};
ghost use Rattle.octets.specs.Content.{with_front};

use crate::space::Space;
use edge_io::{Failed, Source};
use std::alloc::Global;
use std::marker::Model;

/// A buffer before a source, which gives no more than a number of bytes. It holds no source: each call takes
/// one, and a reader is used with one source only.
#[derive(Drop)]
pub struct BufferedReader {
    space: Space,
    from: usize,
    to: usize,
    taken: u64,
    limit: u64,
}

impl Model for BufferedReader {
    ghost use Rattle.buffered_reader.specs.Ahead.{Reading};

    ghost Value = { Reading };

    ghost use Rattle.std.specs.Prelude.{◌≤◌, ◌<◌, ◌+◌, ◌-◌, length, take, drop};

    ghost view = { λ s. record { buffered = take (s.to - s.from) (drop s.from s.space); taken = s.taken; limit = s.limit } };

    ghost invariant = { λ s. (s.from ≤ s.to) × (s.to ≤ length s.space) × (0 < length s.space) × (s.taken + (s.to - s.from) ≤ s.limit) };
}

// The lesser of a length and a number of bytes.
fn at_most(len: usize, count: u64) -> usize
    ensures { result ≡ min len count }
{
    if len as u64 <= count {
        return len;
    }
    count as usize
}

// Copies what fits from the front of `from`, and answers how many bytes.
fn copy_front(from: &[u8], to: &mut [u8]) -> usize
    ensures within { result ≤ length from.now }
    ensures bound { result ≤ length to.new }
    ensures bytes { take result to.new ≡ take result from.now }
    ensures some { 0 < length from.now → 0 < length to.new → 0 < result }
{
    let count = from.len().min(to.len());
    let (front, _) = from.split_at(count);
    let (space, _) = to.split_at_mut(count);
    space.copy_from_slice(front);
    count
}

impl BufferedReader {
    ghost use Rattle.buffered_reader.specs.Ahead.{ahead, past};
    ghost use Rattle.buffered_reader.specs.Bytes.{bytes_of};

    /// A reader of at most `limit` bytes, which has taken none.
    pub fn new(limit: u64) -> BufferedReader
        ensures { result ≡ record { buffered = []; taken = 0; limit = limit } }
    {
        BufferedReader {
            space: Space::new(),
            from: 0,
            to: 0,
            taken: 0,
            limit,
        }
    }

    /// How many bytes were taken.
    pub fn taken(&self) -> u64
        ensures { result ≡ self.now.taken }
    {
        self.taken
    }

    /// How many bytes may be taken.
    pub(crate) fn limit(&self) -> u64
        ensures limit { result ≡ self.now.limit }
        ensures limited { self.now.taken + length self.now.buffered ≤ self.now.limit }
    {
        self.limit
    }

    // How many more bytes may be read from the source.
    fn room(&self) -> u64
        ensures room { result ≡ self.now.limit - self.now.taken - length self.now.buffered }
        ensures limited { self.now.taken + length self.now.buffered ≤ self.now.limit }
    {
        self.limit - self.taken - (self.to - self.from) as u64
    }

    // Whether no byte is buffered.
    fn is_drained(&self) -> bool
        ensures { IsTrue result ↔ (self.now.buffered ≡ []) }
    {
        self.from == self.to
    }

    /// The bytes that are buffered, lent: the front of what is ahead, and no more than the limit allows. They are not
    /// taken yet, and the source is not asked.
    pub fn buffered(&self) -> &[u8]
        ensures { result.now ≡ self.now.buffered }
    {
        let (front, _) = self.space.as_slice().split_at(self.to);
        let (_, buffered) = front.split_at(self.from);
        buffered
    }

    /// Takes bytes off the front of what is buffered.
    pub fn pass(&mut self, count: usize)
        requires { count ≤ length self.old.buffered }
        ensures after { self.new ≡ record self.old {
          buffered = drop count self.old.buffered;
          taken = self.old.taken + count;
        } }
        ensures limited { self.old.taken + length self.old.buffered ≤ self.old.limit }
    {
        self.from += count;
        self.taken += count as u64;
    }

    // Counts bytes that went past the buffer.
    fn count(&mut self, count: usize)
        requires drained { self.old.buffered ≡ [] }
        requires limited { self.old.taken + count ≤ self.old.limit }
        ensures { self.new ≡ record self.old { taken = self.old.taken + count } }
    {
        self.taken += count as u64;
    }

    /// Gives the reader a buffer of so many bytes on the heap, where it has a smaller one; what is buffered stays.
    /// Where memory is wanting the reader keeps the buffer that it has.
    pub fn widen(&mut self, alloc: Global, len: usize)
        ensures { self.new ≡ self.old }
    {
        if len <= self.space.len() {
            return;
        }
        let Ok(mut wide) = vec![in alloc; 0u8; len] else {
            return;
        };
        let count = self.to - self.from;
        let (front, _) = wide.as_mut_slice().split_at_mut(count);
        front.copy_from_slice(self.buffered());
        self.from = 0;
        self.to = count;
        self.space = Space::wide(wide);
    }

    // Reads from the source into the empty buffer, and answers how many bytes, 0 at the end of the input.
    fn refill<S: Source>(&mut self, source: &mut S, room: u64) -> Result<usize, Failed>
        requires drained { self.old.buffered ≡ [] }
        requires limited { self.old.taken + room ≤ self.old.limit }
        ensures read { IfOk result (λ count. (length self.new.buffered ≡ count)
            × (S.left source.old ≡ with_front self.new.buffered (S.left source.new))) }
        ensures end { IfOk result (λ count. count ≡ 0 → 0 < room → IfSome (S.left source.old) (λ rest. rest ≡ [])) }
        ensures failed { OnErr result ((self.new ≡ self.old) × (S.left source.new ≡ S.left source.old)) }
        ensures taken { self.new.taken ≡ self.old.taken }
        ensures limit { self.new.limit ≡ self.old.limit }
        ensures cause { HasCause each (S.faults source.old) (S.faults source.new) result }
    {
        self.from = 0;
        self.to = 0;
        let room = at_most(self.space.len(), room);
        let count = self.space.fill(source, room)?;
        self.to = count;
        Ok(count)
    }

    // Whether a byte is buffered after this: the source is read where none is, and there is none at the end of
    // the input.
    fn ready<S: Source>(&mut self, source: &mut S) -> Result<bool, Failed>
        ensures some { IfOk result (λ ready. IsTrue ready → 0 < length self.new.buffered) }
        ensures end { IfOk result (λ ready. ready ≡ false
            → IfSome (ahead self.old (S.left source.old)) (λ rest. rest ≡ [])) }
        ensures ahead { ahead self.new (S.left source.new) ≡ ahead self.old (S.left source.old) }
        ensures past { past self.new (S.left source.new) ≡ past self.old (S.left source.old) }
        ensures taken { self.new.taken ≡ self.old.taken }
        ensures limit { self.new.limit ≡ self.old.limit }
        ensures end_drained { IfOk result (λ ready. ready ≡ false → self.new.buffered ≡ []) }
        ensures drained { OnErr result (self.new.buffered ≡ []) }
        ensures cause { HasCause each (S.faults source.old) (S.faults source.new) result }
    {
        if !self.is_drained() {
            return Ok(true);
        }
        let room = self.room();
        if room == 0 {
            return Ok(false);
        }
        let count = self.refill(source, room)?;
        if count == 0 {
            return Ok(false);
        }
        Ok(true)
    }

    /// Takes a byte, or answers None at the end of the input and at the limit.
    pub fn byte<S: Source>(&mut self, source: &mut S) -> Result<Option<u8>, Failed>
        ensures ahead { IfOk result (λ found. ahead self.old (S.left source.old) ≡ with_front (bytes_of found)
            (ahead self.new (S.left source.new))) }
        ensures taken { IfOk result (λ found. self.new.taken ≡ self.old.taken + length (bytes_of found)) }
        ensures limited { IfOk result (λ found. IfSome found (λ _. self.new.taken ≤ self.new.limit)) }
        ensures end { IfOk result (λ found. IfNone found
            (IfSome (ahead self.old (S.left source.old)) (λ rest. rest ≡ []))) }
        ensures failed { OnErr result (ahead self.new (S.left source.new) ≡ ahead self.old (S.left source.old)) }
        ensures failed_taken { OnErr result (self.new.taken ≡ self.old.taken) }
        ensures end_drained { IfOk result (λ found. IfNone found (self.new.buffered ≡ [])) }
        ensures drained { OnErr result (self.new.buffered ≡ []) }
        ensures past { past self.new (S.left source.new) ≡ past self.old (S.left source.old) }
        ensures limit { self.new.limit ≡ self.old.limit }
        ensures cause { HasCause each (S.faults source.old) (S.faults source.new) result }
    {
        if !self.ready(source)? {
            return Ok(None);
        }
        let byte = self.buffered()[0];
        self.pass(1);
        Ok(Some(byte))
    }

    /// Takes bytes into the front of `out`, and answers how many: 0 at the end of the input, at the limit and
    /// where `out` is empty. Bytes that are not buffered go from the source straight into `out`.
    pub fn read<S: Source>(&mut self, source: &mut S, out: &mut [u8]) -> Result<usize, Failed>
        ensures bound { IfOk result (λ count. count ≤ length out.new) }
        ensures ahead { IfOk result (λ count. ahead self.old (S.left source.old) ≡ with_front (take count out.new)
            (ahead self.new (S.left source.new))) }
        ensures taken { IfOk result (λ count. self.new.taken ≡ self.old.taken + count) }
        ensures end { IfOk result (λ count. count ≡ 0 → 0 < length out.new
            → IfSome (ahead self.old (S.left source.old)) (λ rest. rest ≡ [])) }
        ensures failed { OnErr result (ahead self.new (S.left source.new) ≡ ahead self.old (S.left source.old)) }
        ensures failed_taken { OnErr result (self.new.taken ≡ self.old.taken) }
        ensures end_drained { IfOk result (λ count. count ≡ 0 → 0 < length out.new → self.new.buffered ≡ []) }
        ensures drained { OnErr result (self.new.buffered ≡ []) }
        ensures past { past self.new (S.left source.new) ≡ past self.old (S.left source.old) }
        ensures limit { self.new.limit ≡ self.old.limit }
        ensures cause { HasCause each (S.faults source.old) (S.faults source.new) result }
    {
        if !self.is_drained() {
            let count = copy_front(self.buffered(), out);
            self.pass(count);
            return Ok(count);
        }
        let room = at_most(out.len(), self.room());
        let (space, _) = out.split_at_mut(room);
        let count = source.read(space)?;
        self.count(count);
        Ok(count)
    }
}
