//! Reading the parts of a stream, and what its end decides.

ghost use Rattle.std.specs.Prelude.{◌≡◌, ◌≢◌, ◌≤◌, ◌<◌, ◌+◌, [], ℕ, List, length, IfOk, IfErr, IfSome, OnOk, OnErr};
ghost use Rattle.octets.specs.Causes.{HasCause};
ghost use Rattle.clone_stream.specs.Faults.{stream_source_failed};
ghost use Rattle.octets.specs.Content.{with_front};
ghost use Rattle.buffered_reader.specs.Ahead.{ahead, past};
ghost use Rattle.clone_stream.specs.Breaks.{BreaksHeader};
ghost use Rattle.clone_stream.specs.Deciding.{IsRefusedBy};
ghost use Rattle.clone_stream.specs.Fronts.{FirstBreak};
ghost use Rattle.clone_stream.specs.Parts.{AreParts, EndsAt, EndsWithin, OverRuns, PassesBy};
ghost use Rattle.clone_stream.specs.Stopping.{ReadsOn};
ghost use Rattle.clone_stream.specs.Streams.{header, largest_stream};
ghost use Rattle.clone_stream.specs.Taking.{IsChangeRead, IsOfSource};

use crate::records::read_records;
use crate::stream_faults::{Break, StreamFault, is_cut, of_break, of_line};
use buffered_reader::BufferedReader;
use edge_io::{Failed, Source};
use keeper_api::Change;
use std::alloc::Global;
use text_reader::same_bytes;

/// The most bytes that a stream may have: 1 GiB.
pub const LARGEST_STREAM: u64 = 1073741824;

// Takes the first line.
fn read_header<S: Source>(reader: &mut BufferedReader, source: &mut S) -> Result<(), Break>
    requires { reader.old.taken ≡ 0 }
    ensures ahead { OnOk result (ahead reader.old (S.left source.old) ≡ with_front header
        (ahead reader.new (S.left source.new))) }
    ensures taken { OnOk result (reader.new.taken ≡ length header) }
    ensures bad { IfErr result (λ fault. IfSome (ahead reader.old (S.left source.old))
        (λ text. BreaksHeader text fault)) }
    ensures reads { ReadsOn reader.old reader.new (S.left source.old) (S.left source.new) (S.faults source.old)
        (S.faults source.new) result }
{
    let line = match reader.line(source) {
        Ok(line) => line,
        Err(fault) => return Err(of_line(0, reader.taken(), fault)),
    };
    if !same_bytes(line.as_slice(), b"gittuf-stream 1") {
        return Err(Break::BadLine { at: 0 });
    }
    Ok(())
}

// Looks for a byte after the last line.
fn read_end<S: Source>(reader: &mut BufferedReader, source: &mut S) -> Result<(), Break>
    ensures end { OnOk result (EndsAt reader.old reader.new (ahead reader.old (S.left source.old))
        (ahead reader.new (S.left source.new))) }
    ensures bad { IfErr result (OverRuns reader.old.taken (ahead reader.old (S.left source.old))) }
    ensures reads { ReadsOn reader.old reader.new (S.left source.old) (S.left source.new) (S.faults source.old)
        (S.faults source.new) result }
{
    match reader.byte(source) {
        Ok(None) => Ok(()),
        Ok(Some(_)) => Err(Break::BadLine {
            at: reader.taken() - 1,
        }),
        Err(Failed) => Err(Break::Failed { at: reader.taken() }),
    }
}

// Takes a whole stream up to the limit.
fn read_parts<S: Source>(
    alloc: Global,
    reader: &mut BufferedReader,
    source: &mut S,
) -> Result<Change, Break>
    requires { reader.old.taken ≡ 0 }
    ensures found { IfOk result (λ change. AreParts change reader.new (ahead reader.old (S.left source.old))
        (ahead reader.new (S.left source.new))) }
    ensures bad { IfErr result (λ fault. IfSome (ahead reader.old (S.left source.old)) (λ text. FirstBreak text fault)) }
    ensures reads { ReadsOn reader.old reader.new (S.left source.old) (S.left source.new) (S.faults source.old)
        (S.faults source.new) result }
{
    match read_header(reader, source) {
        Ok(()) => {}
        Err(fault) => return Err(fault),
    }
    let change = match read_records(alloc, reader, source) {
        Ok(change) => change,
        Err(fault) => return Err(fault),
    };
    match read_end(reader, source) {
        Ok(()) => Ok(change),
        Err(fault) => Err(fault),
    }
}

// Whether the input ends within the limit: `TooLarge` where it goes on past it.
fn end_within<S: Source>(reader: &mut BufferedReader, source: &mut S) -> Result<(), StreamFault>
    requires { reader.old.limit ≡ largest_stream }
    ensures within { OnOk result (EndsWithin reader.old (S.left source.old) (S.left source.new)
        (past reader.old (S.left source.old))) }
    ensures refused { IfErr result (PassesBy reader.old (S.left source.new) (past reader.old (S.left source.old))) }
    ensures no_keeper { IfErr result IsOfSource }
    ensures cause { HasCause stream_source_failed (S.faults source.old) (S.faults source.new) result }
{
    match reader.passes_limit(source) {
        Ok(true) => Err(StreamFault::TooLarge {
            limit: LARGEST_STREAM,
        }),
        Ok(false) => Ok(()),
        Err(Failed) => Err(StreamFault::SourceFailed),
    }
}

/// Reads a source's stream to its end, and answers the change that puts its repository into an empty keeper.
pub fn read_change<S: Source>(alloc: Global, source: &mut S) -> Result<Change, StreamFault>
    ensures found { IfOk result (λ change. IsChangeRead change (S.left source.old) (S.left source.new)) }
    ensures refused { IfErr result
        (λ fault. IfSome (S.left source.old) (λ input. IsRefusedBy largest_stream input (S.left source.new) fault)) }
    ensures no_keeper { IfErr result IsOfSource }
    ensures cause { HasCause stream_source_failed (S.faults source.old) (S.faults source.new) result }
{
    let mut reader = BufferedReader::new(LARGEST_STREAM);
    let fault = match read_parts(alloc, &mut reader, source) {
        Ok(change) => match end_within(&mut reader, source) {
            Ok(()) => return Ok(change),
            Err(fault) => return Err(fault),
        },
        Err(fault) => fault,
    };
    if !is_cut(&fault) {
        return Err(of_break(&fault));
    }
    match end_within(&mut reader, source) {
        Ok(()) => Err(of_break(&fault)),
        Err(refused) => Err(refused),
    }
}
