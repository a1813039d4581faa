//! The bodies of replies, which take no memory.

ghost use Rattle.std.specs.Prelude.{◌≡◌, ◌≤◌, ◌+◌, ◌++◌, codes, decimal, length};
ghost use Rattle.hex.specs.Hex.{encode_lower};
ghost use Rattle.desk_messages.specs.ReplyBodies.{body_of, code_of, entry_line, number_line, refusal_body};
ghost use Rattle.desk_messages.specs.ReplyBodies.{refusal_code};

use crate::Refusal;
use buffered_reader::Line;
use git_object::ObjectId;
use itoa::Buffer;
use pushes::Reply;

// A line with these bytes.
fn begun(bytes: &[u8]) -> Line
    requires { length bytes.now ≤ 20 }
    ensures { result ≡ bytes.now }
{
    let mut line = Line::new();
    line.append(bytes);
    line
}

// Adds a space and a number.
fn put_number(line: &mut Line, number: u64)
    requires { length line.old ≤ 300 }
    ensures text { line.new ≡ line.old ++ codes " " ++ decimal number }
    ensures short { length line.new ≤ length line.old + 41 }
{
    let mut digits = Buffer::new();
    line.append(b" ");
    line.append(digits.format(number).as_bytes());
}

// Adds a space and an id.
fn put_id(line: &mut Line, id: &ObjectId)
    requires { length line.old ≤ 300 }
    ensures text { line.new ≡ line.old ++ codes " " ++ encode_lower id.now }
    ensures short { length line.new ≡ length line.old + 65 }
{
    line.append(b" ");
    line.append(&id.to_hex());
}

// A line with these bytes, and its end.
fn text_line(bytes: &[u8]) -> Line
    requires { length bytes.now ≤ 20 }
    ensures { result ≡ bytes.now ++ codes "\n" }
{
    let mut line = begun(bytes);
    line.append(b"\n");
    line
}

fn number_line(word: &[u8], number: u64) -> Line
    requires { length word.now ≤ 20 }
    ensures { result ≡ number_line word.now number }
{
    let mut line = begun(word);
    put_number(&mut line, number);
    line.append(b"\n");
    line
}

fn id_line(word: &[u8], id: &ObjectId) -> Line
    requires { length word.now ≤ 20 }
    ensures { result ≡ word.now ++ codes " " ++ encode_lower id.now ++ codes "\n" }
{
    let mut line = begun(word);
    put_id(&mut line, id);
    line.append(b"\n");
    line
}

/// A line of a word, a number and an id.
pub(crate) fn entry_line(word: &[u8], number: u64, id: &ObjectId) -> Line
    requires { length word.now ≤ 20 }
    ensures { result ≡ entry_line word.now number id.now }
{
    let mut line = begun(word);
    put_number(&mut line, number);
    put_id(&mut line, id);
    line.append(b"\n");
    line
}

fn numbers_line(word: &[u8], first: u64, second: u64) -> Line
    requires { length word.now ≤ 20 }
    ensures { result ≡ word.now ++ codes " " ++ decimal first ++ codes " " ++ decimal second ++ codes "\n" }
{
    let mut line = begun(word);
    put_number(&mut line, first);
    put_number(&mut line, second);
    line.append(b"\n");
    line
}

fn ids_line(word: &[u8], first: &ObjectId, second: &ObjectId) -> Line
    requires { length word.now ≤ 20 }
    ensures { result
        ≡ word.now ++ codes " " ++ encode_lower first.now ++ codes " " ++ encode_lower second.now ++ codes "\n" }
{
    let mut line = begun(word);
    put_id(&mut line, first);
    put_id(&mut line, second);
    line.append(b"\n");
    line
}

/// The body of what a push is answered.
pub(crate) fn body_of(reply: &Reply) -> Line
    ensures { result ≡ body_of reply.now }
{
    match reply {
        Reply::Done { number, id } => entry_line(b"done", *number, id),
        Reply::Already { number } => number_line(b"already", *number),
        Reply::Stale { number, id } => entry_line(b"stale", *number, id),
        Reply::Malformed { at } => number_line(b"malformed", *at),
        Reply::Incomplete { id } => id_line(b"incomplete", id),
        Reply::TooLarge { length } => number_line(b"too large", *length),
        Reply::Misnumbered { number, expected } => numbers_line(b"misnumbered", *number, *expected),
        Reply::Moved { found, expected } => ids_line(b"moved", found, expected),
        Reply::Fault => text_line(b"fault"),
        Reply::Memory => text_line(b"memory"),
    }
}

/// The code of what a push is answered.
pub fn code_of(reply: &Reply) -> u16
    ensures { result ≡ code_of reply.now }
{
    match reply {
        Reply::Done { .. } => 201,
        Reply::Already { .. } => 200,
        Reply::Stale { .. } => 409,
        Reply::Malformed { .. } => 400,
        Reply::Incomplete { .. } => 422,
        Reply::TooLarge { .. } => 413,
        Reply::Misnumbered { .. } => 422,
        Reply::Moved { .. } => 502,
        Reply::Fault => 500,
        Reply::Memory => 503,
    }
}

/// The body of the refusal of a request.
pub(crate) fn refusal_body(why: &Refusal) -> Line
    ensures { result ≡ refusal_body why.now }
{
    match why {
        Refusal::BadRequest => text_line(b"bad request"),
        Refusal::NotFound => text_line(b"not found"),
        Refusal::MethodNotAllowed => text_line(b"method not allowed"),
        Refusal::LengthRequired => text_line(b"length required"),
        Refusal::TooLarge { length } => number_line(b"too large", *length),
    }
}

/// The code of the refusal of a request.
pub fn refusal_code(why: &Refusal) -> u16
    ensures { result ≡ refusal_code why.now }
{
    match why {
        Refusal::BadRequest => 400,
        Refusal::NotFound => 404,
        Refusal::MethodNotAllowed => 405,
        Refusal::LengthRequired => 411,
        Refusal::TooLarge { .. } => 413,
    }
}
