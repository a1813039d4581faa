//! The lines that the commands print.

ghost use Rattle.std.specs.Prelude.{◌≡◌, ◌≤◌, ◌+◌, ◌++◌, [], length};
ghost use Rattle.std.specs.Vec.{vec_capacity};
ghost use Rattle.log_appending.specs.Lines.{break_line, entry_line};

use crate::Appended;
use git_object::ObjectId;
use itoa::Buffer;

/// The most bytes of a line.
pub const LONGEST_LINE: usize = 92;

/// Adds bytes to a line that has room for them.
pub fn append(line: &mut Vec<u8>, bytes: &[u8])
    requires { length line.old.items + length bytes.now ≤ vec_capacity line.old }
    ensures added { line.new.items ≡ line.old.items ++ bytes.now }
    ensures room { vec_capacity line.old ≤ vec_capacity line.new }
{
    match line.extend_from_slice(bytes) {
        Ok(()) => {}
        Err(_) => unreachable!(),
    }
}

/// Writes the line that tells an entry into an empty buffer with room for it: `entry `, its number, a space, its id as
/// lower-case hexadecimal digits, and a line feed.
pub fn write_entry_line(appended: &Appended, line: &mut Vec<u8>)
    requires empty { line.old.items ≡ [] }
    requires room { 92 ≤ vec_capacity line.old }
    ensures { line.new.items ≡ entry_line appended.now }
{
    let mut digits = Buffer::new();
    append(line, b"entry ");
    append(line, digits.format(appended.number).as_bytes());
    append(line, b" ");
    append(line, &appended.id.to_hex());
    append(line, b"\n");
}

/// Writes the line that tells where a log breaks into an empty buffer with room for it: `log-broken `, the id as
/// lower-case hexadecimal digits, and a line feed.
pub fn write_break_line(id: &ObjectId, line: &mut Vec<u8>)
    requires empty { line.old.items ≡ [] }
    requires room { 92 ≤ vec_capacity line.old }
    ensures { line.new.items ≡ break_line id.now }
{
    append(line, b"log-broken ");
    append(line, &id.to_hex());
    append(line, b"\n");
}
