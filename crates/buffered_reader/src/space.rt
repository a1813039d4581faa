//! Where a reader keeps what is buffered: at first 4096 bytes that take no memory of the heap, and then perhaps more.

ghost use Rattle.std.specs.Prelude.{◌≡◌, ◌≤◌, ◌<◌, [], length, take, IfOk, IfSome, OnErr};
ghost use Rattle.octets.specs.Causes.{HasCause, each};
ghost use Rattle.octets.specs.Content.{with_front};

use edge_io::{Failed, Source};
use std::marker::Model;

/// Bytes to read into. Contracts see them as a list.
#[derive(Drop)]
pub(crate) struct Space {
    narrow: [u8; 4096],
    wide: Option<Vec<u8>>,
}

impl Model for Space {
    ghost use Rattle.std.specs.Prelude.{ℕ, List};
    ghost use Rattle.buffered_reader.specs.Spaces.{bytes_in};

    ghost Value = { List ℕ };

    ghost view = { λ s. bytes_in s.narrow s.wide };
}

impl Space {
    /// 4096 bytes, which take no memory of the heap.
    pub(crate) fn new() -> Space
        ensures { length result ≡ 4096 }
    {
        Space {
            narrow: [0; 4096],
            wide: None,
        }
    }

    /// These bytes.
    pub(crate) fn wide(bytes: Vec<u8>) -> Space
        ensures { result ≡ bytes.items }
    {
        Space {
            narrow: [0; 4096],
            wide: Some(bytes),
        }
    }

    /// How many bytes there are.
    pub(crate) fn len(&self) -> usize
        ensures { result ≡ length self.now }
    {
        self.as_slice().len()
    }

    /// The bytes, lent.
    pub(crate) fn as_slice(&self) -> &[u8]
        ensures { result.now ≡ self.now }
    {
        match &self.wide {
            Some(wide) => wide.as_slice(),
            None => &self.narrow,
        }
    }

    /// Reads from a source into the front, up to so many bytes, and answers how many, 0 at the source's end.
    pub(crate) fn fill<S: Source>(&mut self, source: &mut S, room: usize) -> Result<usize, Failed>
        requires { room ≤ length self.old }
        ensures bound { IfOk result (λ count. count ≤ room) }
        ensures read { IfOk result (λ count. S.left source.old ≡ with_front (take count self.new) (S.left source.new)) }
        ensures end { IfOk result (λ count. count ≡ 0 → 0 < room → IfSome (S.left source.old) (λ rest. rest ≡ [])) }
        ensures failed { OnErr result (S.left source.new ≡ S.left source.old) }
        ensures len { length self.new ≡ length self.old }
        ensures cause { HasCause each (S.faults source.old) (S.faults source.new) result }
    {
        match &mut self.wide {
            Some(wide) => {
                let (space, _) = wide.as_mut_slice().split_at_mut(room);
                source.read(space)
            }
            None => {
                let (space, _) = self.narrow.split_at_mut(room);
                source.read(space)
            }
        }
    }
}
