//! Reading the line and the body of a record.

ghost use Rattle.std.specs.Prelude.{◌≡◌, ◌≤◌, ◌+◌, ◌++◌, ◌∷◌, [], length, decimal, IfOk, IfErr, IfSome, OnOk};
ghost use Rattle.octets.specs.Content.{with_front};
ghost use Rattle.buffered_reader.specs.Ahead.{ahead, past};
ghost use Rattle.git_object.specs.Objects.{pair_id};
ghost use Rattle.git_object.specs.Repository.{largest_body};
ghost use Rattle.clone_stream.specs.Breaks.{BreaksBody, BreaksLine};
ghost use Rattle.clone_stream.specs.Stopping.{ReadsOn};
ghost use Rattle.clone_stream.specs.Words.{AreWords, words_line};

use crate::line_words::{ObjectLine, Words, words_of};
use crate::stream_faults::{Break, of_exact, of_line};
use buffered_reader::BufferedReader;
use edge_io::{Failed, Source};
use git_object::{LARGEST_BODY, Object, Octets};
use std::alloc::Global;
use text_reader::same_bytes;

/// Takes the line of a record, and answers what it says.
pub fn next_words<S: Source>(
    alloc: Global,
    reader: &mut BufferedReader,
    source: &mut S,
) -> Result<Words, Break>
    ensures valid { IfOk result AreWords }
    ensures ahead { IfOk result (λ words. ahead reader.old (S.left source.old)
        ≡ with_front (words_line words ++ 10 ∷ []) (ahead reader.new (S.left source.new))) }
    ensures taken { IfOk result (λ words. reader.new.taken ≡ reader.old.taken + length (words_line words) + 1) }
    ensures limited { OnOk result (reader.new.taken ≤ reader.new.limit) }
    ensures bad { IfErr result (λ fault. IfSome (ahead reader.old (S.left source.old))
        (λ rest. BreaksLine reader.old.taken rest fault)) }
    ensures reads { ReadsOn reader.old reader.new (S.left source.old) (S.left source.new) (S.faults source.old)
        (S.faults source.new) result }
{
    let at = reader.taken();
    let line = match reader.line(source) {
        Ok(line) => line,
        Err(fault) => return Err(of_line(at, reader.taken(), fault)),
    };
    words_of(alloc, line.as_slice(), at)
}

// The body of a head and the line feed after it.
fn next_body<S: Source>(
    alloc: Global,
    reader: &mut BufferedReader,
    source: &mut S,
    head: &ObjectLine,
) -> Result<Octets, Break>
    requires { head.now.size ≤ largest_body }
    ensures len { IfOk result (λ body. length body ≡ head.now.size) }
    ensures ahead { IfOk result (λ body. ahead reader.old (S.left source.old) ≡ with_front (body ++ 10 ∷ [])
        (ahead reader.new (S.left source.new))) }
    ensures taken { OnOk result (reader.new.taken ≡ reader.old.taken + head.now.size + 1) }
    ensures limited { OnOk result (reader.new.taken ≤ reader.new.limit) }
    ensures bad { IfErr result (λ fault. IfSome (ahead reader.old (S.left source.old))
        (λ rest. BreaksBody head.now.id head.now.kind head.now.size reader.old.taken rest fault)) }
    ensures reads { ReadsOn reader.old reader.new (S.left source.old) (S.left source.new) (S.faults source.old)
        (S.faults source.new) result }
{
    let body = match reader.exact(alloc, source, head.size as usize) {
        Ok(body) => body,
        Err(fault) => return Err(of_exact(reader.taken(), fault)),
    };
    let found = match reader.byte(source) {
        Ok(found) => found,
        Err(Failed) => return Err(Break::Failed { at: reader.taken() }),
    };
    let Some(byte) = found else {
        return Err(Break::Cut { at: reader.taken() });
    };
    if byte != b'\n' {
        return Err(Break::BadLine {
            at: reader.taken() - 1,
        });
    }
    Ok(body)
}

/// The object whose head was read: its body, the line feed after it, and its id, which is the head's.
pub fn next_object<S: Source>(
    alloc: Global,
    reader: &mut BufferedReader,
    source: &mut S,
    head: &ObjectLine,
) -> Result<Object, Break>
    requires { head.now.size ≤ largest_body }
    ensures own { IfOk result (λ object. pair_id object ≡ head.now.id) }
    ensures kind { IfOk result (λ object. object.kind ≡ head.now.kind) }
    ensures len { IfOk result (λ object. length object.body ≡ head.now.size) }
    ensures ahead { IfOk result (λ object. ahead reader.old (S.left source.old) ≡ with_front (object.body ++ 10 ∷ [])
        (ahead reader.new (S.left source.new))) }
    ensures taken { OnOk result (reader.new.taken ≡ reader.old.taken + head.now.size + 1) }
    ensures limited { OnOk result (reader.new.taken ≤ reader.new.limit) }
    ensures bad { IfErr result (λ fault. IfSome (ahead reader.old (S.left source.old))
        (λ rest. BreaksBody head.now.id head.now.kind head.now.size reader.old.taken rest fault)) }
    ensures reads { ReadsOn reader.old reader.new (S.left source.old) (S.left source.new) (S.faults source.old)
        (S.faults source.new) result }
{
    let id = head.id;
    let body = match next_body(alloc, reader, source, head) {
        Ok(body) => body,
        Err(fault) => return Err(fault),
    };
    let Ok(object) = Object::new(alloc, head.kind, body) else {
        return Err(Break::Memory);
    };
    let found = object.id();
    if !same_bytes(found.as_bytes(), id.as_bytes()) {
        return Err(Break::IdDiffers { id, found });
    }
    Ok(object)
}
