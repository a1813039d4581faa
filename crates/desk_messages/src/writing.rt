//! Replies, written to a sink.

ghost use Rattle.std.specs.Prelude.{◌≡◌, IsTrue, OnErr, OnOk};
ghost use Rattle.octets.specs.Causes.{HasCause, each};
ghost use Rattle.octets.specs.Content.{GainsPart, with_end};
ghost use Rattle.desk_messages.specs.ReplyBodies.{answer_text, refusal_text, tip_text};
ghost use Rattle.desk_messages.specs.Texts.{is_reply_code, reply_text};

use crate::Refusal;
use crate::reply_bodies::{body_of, code_of, entry_line, refusal_body, refusal_code};
use crate::reply_heads::reply_head;
use edge_io::{Failed, Sink, write_all};
use git_object::ObjectId;
use pushes::Reply;

// The most bytes that a line takes.
const ROOM: usize = 399;

/// Writes a reply: its head, and the body behind it. A short one goes out as one piece. After `Failed`, which comes
/// exactly where the sink counted a fault, a front of the text went out, and not all. It takes no memory.
pub fn write_reply<K: Sink>(sink: &mut K, code: u16, body: &[u8]) -> Result<(), Failed>
    requires { IsTrue (is_reply_code code) }
    ensures whole { OnOk result (K.contents sink.new ≡ with_end (K.contents sink.old) (reply_text code body.now)) }
    ensures part { OnErr result (GainsPart (K.contents sink.old) (K.contents sink.new) (reply_text code body.now)) }
    ensures cause { HasCause each (K.faults sink.old) (K.faults sink.new) result }
{
    let mut text = reply_head(code, body.len());
    if body.len() <= ROOM - text.len() {
        text.append(body);
        return write_all(sink, text.as_slice());
    }
    write_all(sink, text.as_slice())?;
    write_all(sink, body)
}

/// Writes what a push is answered, as `write_reply` does.
pub fn write_answer<K: Sink>(sink: &mut K, reply: &Reply) -> Result<(), Failed>
    ensures whole { OnOk result (K.contents sink.new ≡ with_end (K.contents sink.old) (answer_text reply.now)) }
    ensures part { OnErr result (GainsPart (K.contents sink.old) (K.contents sink.new) (answer_text reply.now)) }
    ensures cause { HasCause each (K.faults sink.old) (K.faults sink.new) result }
{
    write_reply(sink, code_of(reply), body_of(reply).as_slice())
}

/// Writes why a request is refused, as `write_reply` does.
pub fn write_refusal<K: Sink>(sink: &mut K, why: &Refusal) -> Result<(), Failed>
    ensures whole { OnOk result (K.contents sink.new ≡ with_end (K.contents sink.old) (refusal_text why.now)) }
    ensures part { OnErr result (GainsPart (K.contents sink.old) (K.contents sink.new) (refusal_text why.now)) }
    ensures cause { HasCause each (K.faults sink.old) (K.faults sink.new) result }
{
    write_reply(sink, refusal_code(why), refusal_body(why).as_slice())
}

/// Writes how many entries there are and the last one, as `write_reply` does.
pub fn write_tip<K: Sink>(sink: &mut K, count: u64, id: &ObjectId) -> Result<(), Failed>
    ensures whole { OnOk result (K.contents sink.new ≡ with_end (K.contents sink.old) (tip_text count id.now)) }
    ensures part { OnErr result (GainsPart (K.contents sink.old) (K.contents sink.new) (tip_text count id.now)) }
    ensures cause { HasCause each (K.faults sink.old) (K.faults sink.new) result }
{
    write_reply(sink, 200, entry_line(b"tip", count, id).as_slice())
}
