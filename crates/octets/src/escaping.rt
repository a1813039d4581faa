//! Writing the words.

ghost use Rattle.std.specs.Prelude.{◌≡◌, ◌++◌, ◌<◌, IfOk, OnErr, OnOk, slice_index};
ghost use Rattle.octets.specs.Escaped.{escaped, escaped_byte, is_plain, upper_digits};

use crate::{Memory, Octets};
use std::alloc::Global;

fn is_plain(byte: u8) -> bool
    ensures { result ≡ is_plain byte }
{
    32 < byte && byte < 127 && byte != b'%'
}

fn upper_digit(value: u8) -> u8
    requires { value < 16 }
    ensures { result ≡ slice_index upper_digits value }
{
    b"0123456789ABCDEF"[value as usize]
}

fn append_byte(text: &mut Octets, byte: u8) -> Result<(), Memory>
    ensures { OnOk result (text.new ≡ text.old ++ escaped_byte byte) }
{
    if is_plain(byte) {
        text.push(byte)
    } else {
        text.append(&[b'%', upper_digit(byte / 16), upper_digit(byte % 16)])
    }
}

/// The word of some bytes.
pub fn escaped_text(alloc: Global, bytes: &[u8]) -> Result<Octets, Memory>
    ensures { IfOk result (λ text. text ≡ escaped bytes.now) }
{
    let mut text = Octets::new(alloc);
    for byte in bytes {
        append_byte(&mut text, *byte)?;
    }
    Ok(text)
}

/// Adds the word of some bytes at the end of a text. After a refusal the text is as before.
pub fn append_escaped(text: &mut Octets, bytes: &[u8]) -> Result<(), Memory>
    ensures added { OnOk result (text.new ≡ text.old ++ escaped bytes.now) }
    ensures same { OnErr result (text.new ≡ text.old) }
{
    let word = escaped_text(text.allocator(), bytes)?;
    text.append(word.as_slice())
}
