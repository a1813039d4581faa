//! An object without its id, and the head that is hashed before its body (Git's object names).

ghost use Rattle.std.specs.Prelude.{◌≡◌, ◌≤◌, ◌+◌, ◌++◌, length, take};
ghost use Rattle.object_lanes.specs.Groups.{object_head};

use git_object::Kind;
use itoa::Buffer;
use octets::Octets;

/// A kind and a body, whose id is not computed yet.
#[derive(Drop)]
pub struct Unnamed {
    pub kind: Kind,
    pub body: Octets,
}

// The head of an object: its first `len` bytes.
#[derive(Clone, Copy)]
pub(crate) struct Head {
    pub(crate) bytes: [u8; 64],
    pub(crate) len: usize,
}

impl Head {
    #[inline(always)]
    pub(crate) fn as_slice(&self) -> &[u8]
        requires { self.now.len ≤ 64 }
        ensures { result.now ≡ take self.now.len self.now.bytes }
    {
        &self.bytes[..self.len]
    }
}

fn put(out: &mut [u8; 64], at: usize, bytes: &[u8])
    requires { at + length bytes.now ≤ 64 }
    ensures { take (at + length bytes.now) out.new ≡ take at out.old ++ bytes.now }
{
    out[at..at + bytes.len()].copy_from_slice(bytes);
}

pub(crate) fn head_of(kind: Kind, size: usize) -> Head
    ensures text { take result.len result.bytes ≡ object_head kind size }
    ensures short { result.len ≤ 64 }
{
    let mut digits = Buffer::new();
    let number = digits.format(size).as_bytes();
    let word = kind.name();
    let space = word.len();
    let zero = space + 1 + number.len();
    let mut bytes = [0u8; 64];
    put(&mut bytes, 0, word);
    put(&mut bytes, space, b" ");
    put(&mut bytes, space + 1, number);
    put(&mut bytes, zero, b"\0");
    Head {
        bytes,
        len: zero + 1,
    }
}
