//! The line that tells a key.

ghost use Rattle.std.specs.Prelude.{◌≡◌, ◌≤◌, ◌+◌, ◌*◌, ◌++◌, [], length};
ghost use Rattle.std.specs.Vec.{vec_capacity};
ghost use Rattle.hex.specs.Hex.{encode_lower};
ghost use Rattle.commands_keys.specs.KeyLines.{key_line};

use root_metadata::key_id;

/// The most bytes of the line.
pub const KEY_LINE: usize = 190;

// Adds bytes, for which there is room.
fn append(line: &mut Vec<u8>, bytes: &[u8])
    requires { length line.old.items + length bytes.now ≤ vec_capacity line.old }
    ensures added { line.new.items ≡ line.old.items ++ bytes.now }
    ensures room { vec_capacity line.old ≤ vec_capacity line.new }
{
    match line.extend_from_slice(bytes) {
        Ok(()) => {}
        Err(_) => unreachable!(),
    }
}

// Adds the bytes of a public key as lower-case hexadecimal digits.
fn append_digits(line: &mut Vec<u8>, public: &[u8])
    requires short { length public.now ≤ 60 }
    requires room { length line.old.items + 2 * length public.now ≤ vec_capacity line.old }
    ensures added { line.new.items ≡ line.old.items ++ encode_lower public.now }
    ensures long { length line.new.items ≡ length line.old.items + 2 * length public.now }
    ensures room { vec_capacity line.old ≤ vec_capacity line.new }
{
    let mut digits = [0; 120];
    let (shown, _) = digits.split_at_mut(2 * public.len());
    let _ = hex::encode_to_slice(public, shown);
    append(line, shown);
}

/// Writes the line that tells a key into an empty buffer with room for it: `key `, the key's id, a space, and the bytes
/// of its public key, 56 or 60, both as lower-case hexadecimal digits, and a line feed.
pub fn write_key_line(public: &[u8], line: &mut Vec<u8>)
    requires short { length public.now ≤ 60 }
    requires empty { line.old.items ≡ [] }
    requires room { 190 ≤ vec_capacity line.old }
    ensures { line.new.items ≡ key_line public.now }
{
    append(line, b"key ");
    append(line, &key_id(public).to_hex());
    append(line, b" ");
    append_digits(line, public);
    append(line, b"\n");
}
