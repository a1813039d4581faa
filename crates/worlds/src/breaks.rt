//! The line of a broken log.

ghost use Rattle.std.specs.Prelude.{◌≡◌, OnErr, OnOk};
ghost use Rattle.octets.specs.Causes.{HasCause, each};
ghost use Rattle.octets.specs.Content.{GainsPart, with_end};
ghost use Rattle.worlds.specs.Breaks.{break_line};

use edge_io::{Failed, Sink, write_all};
use git_object::ObjectId;

/// Prints the line that says that a log breaks at the commit of this id. After `Failed`, which comes exactly where
/// the sink counted a fault, a front of it went out, and not all. It takes no memory.
pub fn print_break<K: Sink>(sink: &mut K, id: &ObjectId) -> Result<(), Failed>
    ensures whole { OnOk result (K.contents sink.new ≡ with_end (K.contents sink.old) (break_line id.now)) }
    ensures part { OnErr result (GainsPart (K.contents sink.old) (K.contents sink.new) (break_line id.now)) }
    ensures cause { HasCause each (K.faults sink.old) (K.faults sink.new) result }
{
    write_all(sink, b"log-broken ")?;
    write_all(sink, &id.to_hex())?;
    write_all(sink, b"\n")
}
