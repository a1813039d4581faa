//! The line of an entry.

ghost use Rattle.std.specs.Prelude.{◌≡◌, ◌++◌, length, OnOk};
ghost use Rattle.commands_log.specs.Lines.{body_words, count_words, entry_line};

use itoa::Buffer;
use octets::{Memory, Octets};
use rsl_chain::{Entry, EntryBody};

// Adds what is said of an annotation of so many ids. After a refusal a front of it may stand there.
fn append_count(text: &mut Octets, skip: bool, count: usize) -> Result<(), Memory>
    ensures { OnOk result (text.new ≡ text.old ++ count_words skip count) }
{
    let mut digits = Buffer::new();
    if skip {
        text.append(b" skip ")?;
    } else {
        text.append(b" note ")?;
    }
    text.append(digits.format(count).as_bytes())?;
    text.append(b"\n")
}

// Adds what is said of an entry's body, and the line feed.
fn append_body(text: &mut Octets, body: &EntryBody) -> Result<(), Memory>
    ensures { OnOk result (text.new ≡ text.old ++ body_words body.now) }
{
    match body {
        EntryBody::Reference { name, target } => {
            text.append(b" ref ")?;
            text.append(name.text())?;
            text.append(b" ")?;
            text.append(&target.to_hex())?;
            text.append(b"\n")
        }
        EntryBody::Annotation {
            ids,
            skip,
            message: _,
        } => append_count(text, *skip, ids.len()),
    }
}

/// Adds the line of an entry. After a refusal a front of it may stand there.
#[tactic(auto, unfolding(crate::specs::Lines::entry_line))]
pub(crate) fn append_entry(text: &mut Octets, entry: &Entry) -> Result<(), Memory>
    ensures { OnOk result (text.new ≡ text.old ++ entry_line entry.now) }
{
    let mut digits = Buffer::new();
    text.append(b"entry ")?;
    text.append(digits.format(entry.number).as_bytes())?;
    text.append(b" ")?;
    text.append(&entry.id.to_hex())?;
    append_body(text, &entry.body)
}
