//! The line that `approve` prints.

ghost use Rattle.std.specs.Prelude.{◌≡◌, ◌≤◌, []};
ghost use Rattle.std.specs.Vec.{vec_capacity};
ghost use Rattle.commands_approve.specs.Lines.{approval_line};

use crate::ends::Ends;
use log_appending::append;

/// The most bytes of a line.
pub const LONGEST_LINE: usize = 139;

/// Writes the line that tells an approval into an empty buffer with room for it: `approval `, the target that it goes
/// from, a space, the tree that it goes to, both as lower-case hexadecimal digits, and a line feed.
pub fn write_approval_line(ends: &Ends, line: &mut Vec<u8>)
    requires empty { line.old.items ≡ [] }
    requires room { 139 ≤ vec_capacity line.old }
    ensures { line.new.items ≡ approval_line ends.now }
{
    append(line, b"approval ");
    append(line, &ends.from.to_hex());
    append(line, b" ");
    append(line, &ends.tree.to_hex());
    append(line, b"\n");
}
