//! The body of an object: bytes of its own, or a part of a text that others share.

ghost use Rattle.std.specs.Prelude.{◌≡◌, ◌≤◌, ◌-◌, drop, length, take};
ghost use Rattle.std.specs.Arc.{arc_value};

use octets::Octets;
use std::marker::Model;
use std::sync::Arc;

// A part of a text, from a byte up to another.
#[derive(Drop)]
struct Part {
    text: Arc<Octets>,
    from: usize,
    to: usize,
}

impl Model for Part {
    ghost use Rattle.std.specs.Prelude.{ℕ, List, ◌≤◌, ◌-◌, drop, length, take};
    ghost use Rattle.std.specs.Arc.{arc_value};

    ghost Value = { List ℕ };

    ghost view = { λ p. take (p.to - p.from) (drop p.from (arc_value p.text)) };

    ghost invariant = { λ p. (p.from ≤ p.to) × (p.to ≤ length (arc_value p.text)) };
}

impl Part {
    fn as_slice(&self) -> &[u8]
        ensures { result.now ≡ self.now }
    {
        &self.text.as_slice()[self.from..self.to]
    }
}

#[derive(Drop)]
enum Bytes {
    Own(Octets),
    Shared(Part),
}

/// The bytes of a body.
#[derive(Drop)]
pub(crate) struct Body {
    bytes: Bytes,
}

impl Model for Body {
    ghost use Rattle.std.specs.Prelude.{ℕ, List};
    ghost use Rattle.git_object.specs.Bodies.{bytes_of};

    ghost Value = { List ℕ };

    ghost view = { λ b. bytes_of b.bytes };
}

impl Body {
    /// Bytes of its own.
    pub(crate) fn own(bytes: Octets) -> Body
        ensures { result ≡ bytes }
    {
        Body {
            bytes: Bytes::Own(bytes),
        }
    }

    /// The part of a text from a byte up to another, which holds the text.
    pub(crate) fn shared(text: Arc<Octets>, from: usize, to: usize) -> Body
        requires order { from ≤ to }
        requires within { to ≤ length (arc_value text) }
        ensures { result ≡ take (to - from) (drop from (arc_value text)) }
    {
        Body {
            bytes: Bytes::Shared(Part { text, from, to }),
        }
    }

    pub(crate) fn as_slice(&self) -> &[u8]
        ensures { result.now ≡ self.now }
    {
        match &self.bytes {
            Bytes::Own(bytes) => bytes.as_slice(),
            Bytes::Shared(part) => part.as_slice(),
        }
    }
}
