//! The head of a reply.

ghost use Rattle.std.specs.Prelude.{◌≡◌, ◌≤◌, ◌++◌, IsTrue, codes, length};
ghost use Rattle.http.specs.StatusCode.{code_digits};
ghost use Rattle.desk_messages.specs.Texts.{is_reply_code, phrase_of, reply_head};

use buffered_reader::Line;
use http::StatusCode;
use itoa::Buffer;

// The status line without its end.
fn status_line(code: u16) -> Line
    requires { IsTrue (is_reply_code code) }
    ensures text { result ≡ codes "HTTP/1.1 " ++ code_digits code ++ codes " " ++ phrase_of code }
    ensures short { length result ≤ 60 }
{
    let Ok(status) = StatusCode::from_u16(code) else {
        unreachable!();
    };
    let Some(phrase) = status.canonical_reason() else {
        unreachable!();
    };
    let mut line = Line::new();
    line.append(b"HTTP/1.1 ");
    line.append(status.as_str().as_bytes());
    line.append(b" ");
    line.append(phrase.as_bytes());
    line
}

/// The head of a reply whose body has this length.
pub(crate) fn reply_head(code: u16, len: usize) -> Line
    requires { IsTrue (is_reply_code code) }
    ensures text { result ≡ reply_head code len }
    ensures short { length result ≤ 399 }
{
    let mut digits = Buffer::new();
    let mut head = status_line(code);
    head.append(b"\r\ncontent-type: text/plain\r\ncontent-length: ");
    head.append(digits.format(len).as_bytes());
    head.append(b"\r\nconnection: close\r\n\r\n");
    head
}
