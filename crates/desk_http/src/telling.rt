//! Replies, written to a link.

ghost use Rattle.std.specs.Prelude.{◌≡◌, IsTrue, codes};
ghost use Rattle.desk_messages.specs.ReplyBodies.{body_of, code_of, entry_line, refusal_body, refusal_code};
ghost use Rattle.desk_messages.specs.Texts.{is_reply_code};
ghost use Rattle.desk_http.specs.ServingAnswers.{given_code, pushed_body, pushed_code, text_body, tip_body};
ghost use Rattle.desk_http.specs.Connections.{Writes};

use crate::{End, Pushed};
use desk_messages::{
    Refusal, code_of, refusal_code, write_answer, write_refusal, write_reply, write_tip,
};
use edge_io::{Failed, Sink};
use git_object::ObjectId;
use octets::Octets;
use pushes::Reply;

// A reply of this code with this body.
fn tell<K: Sink>(sink: &mut K, code: u16, body: &[u8]) -> End
    requires { IsTrue (is_reply_code code) }
    ensures { Writes K.Sink code body.now sink.old sink.new result }
{
    match write_reply(sink, code, body) {
        Ok(()) => End::Replied(code),
        Err(Failed) => End::LinkFailed,
    }
}

/// What a push is answered by the desk.
pub(crate) fn tell_reply<K: Sink>(sink: &mut K, reply: &Reply) -> End
    ensures { Writes K.Sink (code_of reply.now) (body_of reply.now) sink.old sink.new result }
{
    match write_answer(sink, reply) {
        Ok(()) => End::Replied(code_of(reply)),
        Err(Failed) => End::LinkFailed,
    }
}

/// Why a request is refused.
pub(crate) fn tell_refusal<K: Sink>(sink: &mut K, why: &Refusal) -> End
    ensures { Writes K.Sink (refusal_code why.now) (refusal_body why.now) sink.old sink.new result }
{
    match write_refusal(sink, why) {
        Ok(()) => End::Replied(refusal_code(why)),
        Err(Failed) => End::LinkFailed,
    }
}

// How many entries there are, and the last one.
fn tell_entry<K: Sink>(sink: &mut K, count: u64, id: &ObjectId) -> End
    ensures { Writes K.Sink 200 (entry_line (codes "tip") count id.now) sink.old sink.new result }
{
    match write_tip(sink, count, id) {
        Ok(()) => End::Replied(200),
        Err(Failed) => End::LinkFailed,
    }
}

/// How many entries there are and the last one, or why that is not told.
pub(crate) fn tell_tip<K: Sink>(sink: &mut K, tip: &Result<(u64, ObjectId), Reply>) -> End
    ensures { Writes K.Sink (given_code tip.now) (tip_body tip.now) sink.old sink.new result }
{
    match tip {
        Ok(last) => tell_entry(sink, last.0, &last.1),
        Err(reply) => tell_reply(sink, reply),
    }
}

/// A text, or why there is none.
pub(crate) fn tell_text<K: Sink>(sink: &mut K, text: &Result<Octets, Reply>) -> End
    ensures { Writes K.Sink (given_code text.now) (text_body text.now) sink.old sink.new result }
{
    match text {
        Ok(text) => tell(sink, 200, text.as_slice()),
        Err(reply) => tell_reply(sink, reply),
    }
}

/// What a push is answered.
pub(crate) fn tell_pushed<K: Sink>(sink: &mut K, pushed: &Pushed) -> End
    ensures { Writes K.Sink (pushed_code pushed.now) (pushed_body pushed.now) sink.old sink.new result }
{
    match pushed {
        Pushed::Replied { reply } => tell_reply(sink, reply),
        Pushed::Denied { line } => tell(sink, 403, line.as_slice()),
    }
}
