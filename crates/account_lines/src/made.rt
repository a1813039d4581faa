//! Who made an entry, and when.

ghost use Rattle.std.specs.Prelude.{◌≡◌, ◌++◌, codes, OnOk, option_and_then};
ghost use Rattle.serde_json.specs.Data.{member};
ghost use Rattle.serde_json.specs.Written.{compact_text};
ghost use Rattle.json_fields.specs.Writing.{Opens};
ghost use Rattle.account_lines.specs.Authors.{author_of};
ghost use Rattle.account_lines.specs.Times.{time_of};
ghost use Rattle.account_lines.specs.Lines.{author_data};

use crate::{author, time};
use json_fields::{first_name, write_null, write_text};
use octets::{Memory, Octets};
use rsl_chain::Entry;

// Writes the text of the author's line of an entry, or null where it has none.
fn write_author(text: &mut Octets, entry: &Entry) -> Result<(), Memory>
    ensures { OnOk result (text.new ≡ text.old ++ compact_text (author_data entry.now)) }
{
    match author(entry.signed.as_slice()) {
        Some(name) => write_text(text, name),
        None => write_null(text),
    }
}

/// Opens the object of an entry with who made it.
pub(crate) fn open_with_author(text: &mut Octets, entry: &Entry) -> Result<(), Memory>
    ensures { OnOk result (Opens (member (codes "author") (author_data entry.now)) text.old text.new) }
{
    first_name(text, "author")?;
    write_author(text, entry)
}

/// The time in the author's line of an entry.
pub(crate) fn time_of(entry: &Entry) -> Option<u64>
    ensures { result ≡ option_and_then time_of (author_of entry.now.signed) }
{
    match author(entry.signed.as_slice()) {
        Some(text) => time(text),
        None => None,
    }
}
