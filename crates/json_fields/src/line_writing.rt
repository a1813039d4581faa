//! The text of a value, written at the end of a text.

ghost use Rattle.std.specs.Prelude.{◌≡◌, ◌↔◌, ◌*◌, ◌++◌, length, IsTrue, OnOk, false};
ghost use Rattle.std.specs.List.{AllPass};
ghost use Rattle.serde_json.specs.Data.{boolean, null, string};
ghost use Rattle.serde_json.specs.View.{view};
ghost use Rattle.serde_json.specs.Written.{compact_text, has_float};
ghost use Rattle.json_fields.specs.Values.{hex_data, number_data, text_data};
ghost use Rattle.json_fields.specs.Writing.{is_plain};

use crate::texts::{text_json, word_json};
use crate::write;
use itoa::Buffer;
use octets::{Memory, Octets};
use serde_json::Value;
use std::str;

/// Writes a value without a fraction.
pub fn write_value(text: &mut Octets, value: &Value) -> Result<(), Memory>
    ensures { OnOk result (has_float (view value.now) ≡ false
        → text.new ≡ text.old ++ compact_text (view value.now)) }
{
    let made = write(text.allocator(), value)?;
    text.append(made.as_slice())
}

/// Writes that nothing is there.
pub fn write_null(text: &mut Octets) -> Result<(), Memory>
    ensures { OnOk result (text.new ≡ text.old ++ compact_text null) }
{
    text.append(b"null")
}

/// Writes true or false.
pub fn write_bool(text: &mut Octets, value: bool) -> Result<(), Memory>
    ensures { OnOk result (text.new ≡ text.old ++ compact_text (boolean value)) }
{
    if value {
        text.append(b"true")
    } else {
        text.append(b"false")
    }
}

/// Writes a number.
pub fn write_number(text: &mut Octets, value: u64) -> Result<(), Memory>
    ensures { OnOk result (text.new ≡ text.old ++ compact_text (number_data value)) }
{
    let mut buffer = Buffer::new();
    text.append(buffer.format(value).as_bytes())
}

fn is_plain(byte: u8) -> bool
    ensures { result ≡ is_plain byte }
{
    32 <= byte && byte != b'"' && byte != b'\\'
}

// Whether each byte stands for itself between quotes.
fn are_plain(bytes: &[u8]) -> bool
    ensures { IsTrue result ↔ AllPass is_plain bytes.now }
{
    bytes.iter().all(|byte| is_plain(*byte))
}

// Writes bytes between quotes.
fn write_quoted(text: &mut Octets, bytes: &[u8]) -> Result<(), Memory>
    requires { AllPass is_plain bytes.now }
    ensures { OnOk result (text.new ≡ text.old ++ compact_text (string bytes.now)) }
{
    text.push(b'"')?;
    text.append(bytes)?;
    text.push(b'"')
}

/// Writes a text of this program's own.
pub fn write_word(text: &mut Octets, word: &str) -> Result<(), Memory>
    ensures { OnOk result (text.new ≡ text.old ++ compact_text (string word.now)) }
{
    if are_plain(word.as_bytes()) {
        return write_quoted(text, word.as_bytes());
    }
    let value = word_json(text.allocator(), word)?;
    write_value(text, &value)
}

/// Writes bytes as a text where they are UTF-8, and else as an object whose field `escaped` is their printable word.
#[tactic(auto, using(crate::proofs::Wording::as_text, crate::proofs::Floatless::text_floatless))]
pub fn write_text(text: &mut Octets, bytes: &[u8]) -> Result<(), Memory>
    ensures { OnOk result (text.new ≡ text.old ++ compact_text (text_data bytes.now)) }
{
    match str::from_utf8(bytes) {
        Ok(word) => write_word(text, word),
        Err(_) => {
            let value = text_json(text.allocator(), bytes)?;
            write_value(text, &value)
        }
    }
}

// Writes bytes in lower-case hexadecimal, by a place for their digits.
fn write_through(text: &mut Octets, bytes: &[u8], digits: &mut [u8]) -> Result<(), Memory>
    requires { length digits.old ≡ 2 * length bytes.now }
    ensures { OnOk result (text.new ≡ text.old ++ compact_text (hex_data bytes.now)) }
{
    match hex::encode_to_slice(bytes, digits) {
        Ok(()) => write_quoted(text, digits),
        Err(_) => unreachable!(),
    }
}

/// Writes bytes in lower-case hexadecimal.
pub fn write_hex(text: &mut Octets, bytes: &[u8]) -> Result<(), Memory>
    ensures { OnOk result (text.new ≡ text.old ++ compact_text (hex_data bytes.now)) }
{
    if bytes.len() <= 32 {
        return write_through(text, bytes, &mut [0; 64][..2 * bytes.len()]);
    }
    let digits = hex::encode(text.allocator(), bytes)?;
    write_quoted(text, digits.as_bytes())
}
