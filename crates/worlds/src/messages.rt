//! The line that tells a refusal. Telling it takes no memory.

ghost use Rattle.std.specs.Prelude.{◌≡◌, ◌≤◌, ◌<◌, ◌+◌, ◌++◌, ◌∷◌, [], length, codes, decimal};
ghost use Rattle.hex.specs.Hex.{encode_lower};
ghost use Rattle.worlds.specs.Endings.{line_bytes, refusal_line};

use crate::Refusal;
use git_object::ObjectId;
use itoa::Buffer;
use std::marker::Model;

/// A line of at most 80 bytes, its line feed included.
#[derive(Drop)]
pub struct Message {
    bytes: [u8; 80],
    len: usize,
}

impl Model for Message {
    ghost use Rattle.std.specs.Prelude.{◌≤◌, ℕ, List, take};

    ghost Value = { List ℕ };

    ghost view = { λ s. take s.len s.bytes };

    ghost invariant = { λ s. s.len ≤ 80 };
}

impl Message {
    // The empty line.
    fn new() -> Message
        ensures { result ≡ [] }
    {
        Message {
            bytes: [0; 80],
            len: 0,
        }
    }

    /// The bytes, lent.
    pub fn as_slice(&self) -> &[u8]
        ensures { result.now ≡ self.now }
    {
        let (bytes, _) = self.bytes.split_at(self.len);
        bytes
    }

    // Adds a byte at the end.
    fn push(&mut self, byte: u8)
        requires { length self.old < 80 }
        ensures { self.new ≡ self.old ++ byte ∷ [] }
    {
        self.bytes[self.len] = byte;
        self.len += 1;
    }

    // Adds bytes at the end.
    fn append(&mut self, bytes: &[u8])
        requires { length self.old + length bytes.now ≤ 80 }
        ensures { self.new ≡ self.old ++ bytes.now }
    {
        'bytes: for byte in bytes {
            self.push(*byte);
        }
    }
}

// The line of these pieces.
fn line_of(front: &[u8], middle: &[u8]) -> Message
    requires { length front.now + length middle.now ≤ 79 }
    ensures { result ≡ front.now ++ middle.now ++ codes "\n" }
{
    let mut line = Message::new();
    line.append(front);
    line.append(middle);
    line.append(b"\n");
    line
}

// The line of a refused stream.
fn stream_line(number: u8) -> Message
    ensures { result ≡ codes "stream " ++ decimal number ++ codes "\n" }
{
    let mut digits = Buffer::new();
    line_of(b"stream ", digits.format(number).as_bytes())
}

// The line of what is kept under an id.
fn object_line(id: &ObjectId) -> Message
    ensures { result ≡ codes "object " ++ encode_lower id.now ++ codes "\n" }
{
    line_of(b"object ", &id.to_hex())
}

/// The line that tells a refusal: made for it, or held by it.
#[derive(Drop)]
pub enum Line<'a> {
    Made(Message),
    Held(&'a [u8]),
}

impl Line<'_> {
    /// The bytes, lent.
    pub fn as_slice(&self) -> &[u8]
        ensures { result.now ≡ line_bytes self.now }
    {
        match self {
            Line::Made(message) => message.as_slice(),
            Line::Held(bytes) => bytes,
        }
    }
}

impl Refusal {
    /// The line that tells the refusal, with its line feed.
    pub fn line(&self) -> Line<'_>
        ensures { line_bytes result ≡ refusal_line self.now }
    {
        Line::Made(match self {
            Refusal::Words => line_of(b"words refused", b""),
            Refusal::Stream { number } => stream_line(*number),
            Refusal::Object { id } => object_line(id),
            Refusal::TooLarge => line_of(b"too large", b""),
            Refusal::NotEmpty => line_of(b"not empty", b""),
            Refusal::KeyFile => line_of(b"key file", b""),
            Refusal::Policy { line } => return Line::Held(line.as_slice()),
            Refusal::Input => line_of(b"input", b""),
            Refusal::Fault { part: _ } => line_of(b"fault", b""),
            Refusal::Memory => line_of(b"memory", b""),
            Refusal::Exhausted => line_of(b"exhausted", b""),
            Refusal::Desk => line_of(b"desk refused", b""),
        })
    }
}
