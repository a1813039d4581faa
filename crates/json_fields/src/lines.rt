//! Fields that are put into an object, and the line of an object.

ghost use Rattle.std.specs.Prelude.{◌≡◌, ◌≤◌, ◌++◌, IfOk, OnErr, OnOk, Some, false};
ghost use Rattle.serde_json.specs.Data.{depth};
ghost use Rattle.serde_json.specs.Read.{max_depth};
ghost use Rattle.serde_json.specs.View.{members_view, view};
ghost use Rattle.serde_json.specs.Written.{compact_text, has_float};
ghost use Rattle.json_fields.specs.Values.{line_text};

use crate::write;
use octets::{Memory, Octets};
use serde_json::Value;
use std::alloc::Global;

/// The line of a value without a fraction: its text with nothing between its tokens, and a line feed.
pub fn line(alloc: Global, value: &Value) -> Result<Octets, Memory>
    ensures { IfOk result (λ text. has_float (view value.now) ≡ false → text ≡ line_text (view value.now)) }
{
    let mut text = write(alloc, value)?;
    text.append(b"\n")?;
    Ok(text)
}
