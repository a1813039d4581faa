//! The fields of an object, written one after the other at the end of a text.

ghost use Rattle.std.specs.Prelude.{◌≡◌, ◌++◌, ◌∷◌, [], OnOk};
ghost use Rattle.json.specs.Print.{quoted};
ghost use Rattle.serde_json.specs.Data.{member, string};
ghost use Rattle.json_fields.specs.Writing.{Follows, Opens};

use crate::line_writing::write_word;
use crate::lists::ToJson;
use octets::{Memory, Octets};

/// Opens an object, and writes the name of its first field.
pub fn first_name(text: &mut Octets, name: &str) -> Result<(), Memory>
    ensures { OnOk result (text.new ≡ text.old ++ 123 ∷ (quoted name.now ++ 58 ∷ [])) }
{
    text.push(b'{')?;
    write_word(text, name)?;
    text.push(b':')
}

/// Writes the name of a field that follows others.
pub fn next_name(text: &mut Octets, name: &str) -> Result<(), Memory>
    ensures { OnOk result (text.new ≡ text.old ++ 44 ∷ (quoted name.now ++ 58 ∷ [])) }
{
    text.push(b',')?;
    write_word(text, name)?;
    text.push(b':')
}

/// Opens an object, and writes its first field.
pub fn first_field<T: ToJson>(text: &mut Octets, name: &str, value: &T) -> Result<(), Memory>
    ensures { OnOk result (Opens (member name.now (T.data_of value.now)) text.old text.new) }
{
    first_name(text, name)?;
    value.write_json(text)
}

/// Writes a field that follows others.
pub fn next_field<T: ToJson>(text: &mut Octets, name: &str, value: &T) -> Result<(), Memory>
    ensures { OnOk result (Follows (member name.now (T.data_of value.now)) text.old text.new) }
{
    next_name(text, name)?;
    value.write_json(text)
}

/// Writes a field that follows others, and whose value is a text of this program's own.
pub fn next_word(text: &mut Octets, name: &str, word: &str) -> Result<(), Memory>
    ensures { OnOk result (Follows (member name.now (string word.now)) text.old text.new) }
{
    next_name(text, name)?;
    write_word(text, word)
}
