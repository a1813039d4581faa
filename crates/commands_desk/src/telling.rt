//! What a desk answered, printed.

ghost use Rattle.std.specs.Prelude.{◌≡◌, OnErr, OnOk};
ghost use Rattle.octets.specs.Causes.{HasCause, each};
ghost use Rattle.octets.specs.Content.{GainsPart, with_end};
ghost use Rattle.commands_desk.specs.Answering.{is_taken, said_of};

use desk_messages::Answer;
use edge_io::{Failed, Sink, write_all};

/// Whether an answer is a reply that says that the push was taken, or had been.
pub(crate) fn is_taken(answer: &Answer<'_>) -> bool
    ensures { result ≡ is_taken answer.now }
{
    match answer {
        Answer::Reply { code, body: _ } => *code == 200 || *code == 201,
        Answer::Bad { why: _ } => false,
    }
}

// What is printed of an answer: the body of a reply, or that there is none.
fn said_of<'b>(answer: &Answer<'b>) -> &'b [u8]
    ensures { result.now ≡ said_of answer.now }
{
    match *answer {
        Answer::Reply { code: _, body } => body,
        Answer::Bad { why: _ } => b"bad reply\n",
    }
}

/// Prints an answer.
pub(crate) fn print_answer<K: Sink>(sink: &mut K, answer: &Answer<'_>) -> Result<(), Failed>
    ensures whole { OnOk result (K.contents sink.new ≡ with_end (K.contents sink.old) (said_of answer.now)) }
    ensures part { OnErr result (GainsPart (K.contents sink.old) (K.contents sink.new) (said_of answer.now)) }
    ensures cause { HasCause each (K.faults sink.old) (K.faults sink.new) result }
{
    write_all(sink, said_of(answer))
}
