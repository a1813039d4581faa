//! Writing one record of a stream within the limit.

ghost use Rattle.std.specs.Prelude.{◌≡◌, ◌≤◌, ◌+◌, ◌↔◌, ◌++◌, ◌∷◌, [], length, decimal, IfOk, IsErrOf, IsTrue, OnOk};
ghost use Rattle.std.specs.Prelude.{OnErr};
ghost use Rattle.octets.specs.Causes.{HasCause, each};
ghost use Rattle.clone_stream.specs.Faults.{export_sink_failed};
ghost use Rattle.octets.specs.Content.{GainsPart, with_end};
ghost use Rattle.clone_stream.specs.Exports.{Puts};
ghost use Rattle.clone_stream.specs.Streams.{largest_stream, object_line, object_record, ref_line, ref_record};

use crate::{ExportFault, LARGEST_STREAM};
use buffered_reader::Line;
use edge_io::{Failed, Sink, write_all};
use git_object::{Object, ObjectId, RefName};
use itoa::Buffer;
use octets::{Memory, Octets};
use std::alloc::Global;

// The most bytes of a body that is copied, so that its record goes out in one piece.
const LARGEST_COPIED: usize = 4096;

/// Writes a whole text after so many bytes, and answers how many there are then. `TooLarge` comes exactly where
/// the text would pass the limit, and then nothing of it goes out. It takes no memory.
pub fn put<K: Sink>(sink: &mut K, text: &[u8], written: u64) -> Result<u64, ExportFault>
    requires { written ≤ largest_stream }
    ensures puts { Puts text.now written (K.contents sink.old) (K.contents sink.new) result }
    ensures free { IsErrOf result ExportFault.Memory → ⊥ }
    ensures cause { HasCause export_sink_failed (K.faults sink.old) (K.faults sink.new) result }
{
    if text.len() as u64 > LARGEST_STREAM - written {
        return Err(ExportFault::TooLarge {
            limit: LARGEST_STREAM,
        });
    }
    write_all(sink, text)?;
    Ok(written + text.len() as u64)
}

// Writes a line, a body and a line feed, of which none is copied.
fn write_pieces<K: Sink>(sink: &mut K, line: &[u8], body: &[u8]) -> Result<(), Failed>
    ensures whole { OnOk result (K.contents sink.new ≡ with_end (K.contents sink.old)
        (line.now ++ (body.now ++ 10 ∷ []))) }
    ensures part { OnErr result (GainsPart (K.contents sink.old) (K.contents sink.new)
        (line.now ++ (body.now ++ 10 ∷ []))) }
    ensures cause { HasCause each (K.faults sink.old) (K.faults sink.new) result }
{
    write_all(sink, line)?;
    write_all(sink, body)?;
    write_all(sink, b"\n")
}

// Whether a line, a body and a line feed are within the limit after so many bytes.
fn fits(line: &[u8], body: &[u8], written: u64) -> bool
    requires { written ≤ largest_stream }
    ensures { IsTrue result ↔ (written + length (line.now ++ (body.now ++ 10 ∷ [])) ≤ largest_stream) }
{
    let size = (line.len() as u64)
        .saturating_add(body.len() as u64)
        .saturating_add(1);
    size <= LARGEST_STREAM - written
}

// Writes a line, a body and a line feed, as `put` writes a text.
fn put_pieces<K: Sink>(
    sink: &mut K,
    line: &[u8],
    body: &[u8],
    written: u64,
) -> Result<u64, ExportFault>
    requires { written ≤ largest_stream }
    ensures puts { Puts (line.now ++ (body.now ++ 10 ∷ [])) written (K.contents sink.old) (K.contents sink.new) result }
    ensures cause { HasCause export_sink_failed (K.faults sink.old) (K.faults sink.new) result }
{
    if !fits(line, body, written) {
        return Err(ExportFault::TooLarge {
            limit: LARGEST_STREAM,
        });
    }
    write_pieces(sink, line, body)?;
    Ok(written + line.len() as u64 + body.len() as u64 + 1)
}

/// The line of an object and its line feed.
#[tactic(auto, unfolding(crate::specs::Streams::object_line))]
pub fn object_line(id: &ObjectId, object: &Object) -> Line
    ensures { result ≡ object_line id.now object.now.kind (decimal (length object.now.body)) ++ 10 ∷ [] }
{
    let mut digits = Buffer::new();
    let mut line = Line::new();
    line.append(b"object ");
    line.append(&id.to_hex());
    line.append(b" ");
    line.append(object.kind().name());
    line.append(b" ");
    line.append(digits.format(object.body().len()).as_bytes());
    line.append(b"\n");
    line
}

// A line, a body and a line feed in one piece.
fn joined(alloc: Global, line: &[u8], body: &[u8]) -> Result<Octets, Memory>
    ensures { IfOk result (λ text. text ≡ line.now ++ (body.now ++ 10 ∷ [])) }
{
    let mut text = Octets::from_slice(alloc, line)?;
    text.append(body)?;
    text.append(b"\n")?;
    Ok(text)
}

/// Writes the record of an object after so many bytes, as `put` writes a text. A small body is copied, and goes
/// out with its line in one piece; memory is taken for that alone, and only where the record is within the limit.
pub fn put_object<K: Sink>(
    alloc: Global,
    sink: &mut K,
    id: &ObjectId,
    object: &Object,
    written: u64,
) -> Result<u64, ExportFault>
    requires { written ≤ largest_stream }
    ensures puts { Puts (object_record (id.now, object.now)) written (K.contents sink.old) (K.contents sink.new) result }
    ensures cause { HasCause export_sink_failed (K.faults sink.old) (K.faults sink.new) result }
{
    let line = object_line(id, object);
    if object.body().len() > LARGEST_COPIED {
        return put_pieces(sink, line.as_slice(), object.body(), written);
    }
    if !fits(line.as_slice(), object.body(), written) {
        return Err(ExportFault::TooLarge {
            limit: LARGEST_STREAM,
        });
    }
    let text = joined(alloc, line.as_slice(), object.body())?;
    put(sink, text.as_slice(), written)
}

// The line of a reference and its line feed.
#[tactic(auto, unfolding(crate::specs::Streams::ref_line))]
fn ref_text(name: &RefName, id: &ObjectId) -> Line
    ensures { result ≡ ref_record (name.now, id.now) }
{
    let mut text = Line::new();
    text.append(b"ref ");
    text.append(name.text());
    text.append(b" ");
    text.append(&id.to_hex());
    text.append(b"\n");
    text
}

/// Writes the record of a reference after so many bytes, as `put` writes a text. It takes no memory.
pub fn put_ref<K: Sink>(
    sink: &mut K,
    name: &RefName,
    id: &ObjectId,
    written: u64,
) -> Result<u64, ExportFault>
    requires { written ≤ largest_stream }
    ensures puts { Puts (ref_record (name.now, id.now)) written (K.contents sink.old) (K.contents sink.new) result }
    ensures free { IsErrOf result ExportFault.Memory → ⊥ }
    ensures cause { HasCause export_sink_failed (K.faults sink.old) (K.faults sink.new) result }
{
    let text = ref_text(name, id);
    put(sink, text.as_slice(), written)
}
