//! Reading records one after the other, each in its place.

ghost use Rattle.std.specs.Prelude.{◌≡◌, ◌≤◌, ◌+◌, ◌++◌, ◌∷◌, ◌⊎◌, ◌↔◌, [], None, length, map, IfOk, IfErr, IfSome};
ghost use Rattle.std.specs.Prelude.{IsTrue, OnOk};
ghost use Rattle.std.specs.Ordering.{is_lt};
ghost use Rattle.octets.specs.BytesMap.{by_bytes};
ghost use Rattle.octets.specs.Content.{with_front};
ghost use Rattle.buffered_reader.specs.Ahead.{ahead, past};
ghost use Rattle.git_object.specs.Objects.{pair_id};
ghost use Rattle.keeper_api.specs.declared.changes.RefChange.{RefChange};
ghost use Rattle.clone_stream.specs.Changes.{set_ref};
ghost use Rattle.clone_stream.specs.Fronts.{AreRead, BreaksRecords};
ghost use Rattle.clone_stream.specs.Breaks.{BreaksRecord};
ghost use Rattle.clone_stream.specs.Wrongs.{ComesObject};
ghost use Rattle.clone_stream.specs.Reading.{ComesAfter, last_of};
ghost use Rattle.clone_stream.specs.Records.{IsBroken, IsLate, IsNext, IsObjectOf, last_read, record_text};
ghost use Rattle.clone_stream.specs.Stopping.{ReadsOn};
ghost use Rattle.clone_stream.specs.Streams.{IsRef, object_record};
ghost use Rattle.clone_stream.specs.Words.{IsHead};

use crate::grouped::take_group;
use crate::line_words::{ObjectLine, Words};
use crate::record_reads::{next_object, next_words};
use crate::stream_faults::Break;
use buffered_reader::BufferedReader;
use edge_io::Source;
use git_object::{Object, ObjectId, Objects, RefName};
use keeper_api::{Change, RefChange, RefChanges, RefValue};
use std::alloc::Global;

/// A record that was read.
#[derive(Drop)]
pub enum Record {
    Object(Object),
    Ref(RefValue),
    End,
}

// Whether an id comes before another in the order of bytes.
fn is_less_id(left: &ObjectId, right: &ObjectId) -> bool
    ensures { result ≡ is_lt (by_bytes left.now right.now) }
{
    left.cmp(right).is_lt()
}

// Whether a name comes before another in the order of bytes.
fn is_less_name(left: &RefName, right: &RefName) -> bool
    ensures { result ≡ is_lt (by_bytes left.now right.now) }
{
    left < right
}

/// Whether an id is greater than that of the last object, or there is none.
pub fn follows_object(objects: &[Object], id: &ObjectId) -> bool
    ensures { IsTrue result ↔ ComesAfter (last_of (map pair_id objects.now)) id.now }
{
    match objects.last() {
        Some(last) => is_less_id(&last.id(), id),
        None => true,
    }
}

// Whether a name is greater than that of the last reference.
fn follows_ref(refs: &[RefChange], name: &RefName) -> bool
    ensures { IsTrue result ↔ ComesAfter (last_of (map (λ (c : RefChange). c.name) refs.now)) name.now }
{
    match refs.last() {
        Some(last) => is_less_name(&last.name, name),
        None => true,
    }
}

/// Whether an object of this id may come: no reference came, and its id is greater than the last.
pub fn may_come(objects: &[Object], refs: &[RefChange], id: &ObjectId) -> bool
    ensures { IsTrue result ↔ ComesObject (last_read objects.now refs.now) id.now }
{
    if !refs.is_empty() {
        return false;
    }
    follows_object(objects, id)
}

// The object of a head whose line begins at a place, where it may come after those before it.
fn object_after<S: Source>(
    alloc: Global,
    reader: &mut BufferedReader,
    source: &mut S,
    at: u64,
    head: &ObjectLine,
    objects: &[Object],
    refs: &[RefChange],
) -> Result<Record, Break>
    requires { IsHead head.now }
    ensures found { IfOk result (IsObjectOf (last_read objects.now refs.now) head.now.id head.now.kind head.now.size
        (ahead reader.old (S.left source.old)) (ahead reader.new (S.left source.new)) reader.old.taken reader.new.taken) }
    ensures limited { OnOk result (reader.new.taken ≤ reader.new.limit) }
    ensures bad { IfErr result (λ fault. IsLate (last_read objects.now refs.now) at head.now.id fault
        ⊎ IfSome (ahead reader.old (S.left source.old))
        (λ rest. IsBroken (last_read objects.now refs.now) head.now.id head.now.kind head.now.size reader.old.taken rest
        fault)) }
    ensures reads { ReadsOn reader.old reader.new (S.left source.old) (S.left source.new) (S.faults source.old)
        (S.faults source.new) result }
{
    if !may_come(objects, refs, &head.id) {
        return Err(Break::Order { at });
    }
    match next_object(alloc, reader, source, head) {
        Ok(object) => Ok(Record::Object(object)),
        Err(fault) => Err(fault),
    }
}

// The reference of a line that begins at a place, where it may come after those before it.
fn ref_after(at: u64, value: RefValue, refs: &[RefChange]) -> Result<Record, Break>
    ensures found { IfOk result (λ found. found ≡ Record.Ref value) }
    ensures comes { IfOk result (λ _. ComesAfter (last_of (map (λ (c : RefChange). c.name) refs.now)) value.name) }
    ensures bad { IfErr result (λ fault. (fault ≡ Break.Order at)
        × (ComesAfter (last_of (map (λ (c : RefChange). c.name) refs.now)) value.name → ⊥)) }
{
    if !follows_ref(refs, &value.name) {
        return Err(Break::Order { at });
    }
    Ok(Record::Ref(value))
}

/// Takes the record that stands next, which may come after those before it.
pub fn next_record<S: Source>(
    alloc: Global,
    reader: &mut BufferedReader,
    source: &mut S,
    objects: &[Object],
    refs: &[RefChange],
) -> Result<Record, Break>
    ensures next { IfOk result (IsNext (last_read objects.now refs.now)) }
    ensures ahead { IfOk result (λ found. ahead reader.old (S.left source.old) ≡ with_front (record_text found)
        (ahead reader.new (S.left source.new))) }
    ensures taken { IfOk result (λ found. reader.new.taken ≡ reader.old.taken + length (record_text found)) }
    ensures limited { OnOk result (reader.new.taken ≤ reader.new.limit) }
    ensures bad { IfErr result (λ fault. IfSome (ahead reader.old (S.left source.old))
        (λ rest. BreaksRecord (last_read objects.now refs.now) reader.old.taken rest fault)) }
    ensures reads { ReadsOn reader.old reader.new (S.left source.old) (S.left source.new) (S.faults source.old)
        (S.faults source.new) result }
{
    let at = reader.taken();
    match next_words(alloc, reader, source) {
        Ok(Words::Object(head)) => object_after(alloc, reader, source, at, &head, objects, refs),
        Ok(Words::Ref(value)) => ref_after(at, value, refs),
        Ok(Words::End) => Ok(Record::End),
        Err(fault) => Err(fault),
    }
}

// The change that sets a reference to its id.
fn set(value: RefValue) -> RefChange
    ensures { result ≡ set_ref (value.name, value.id) }
{
    RefChange {
        name: value.name,
        to: Some(value.id),
    }
}

/// Takes records up to the last line: objects by rising ids, and then references by rising names.
pub fn read_records<S: Source>(
    alloc: Global,
    reader: &mut BufferedReader,
    source: &mut S,
) -> Result<Change, Break>
    ensures found { IfOk result (λ change. AreRead change (ahead reader.old (S.left source.old))
        (ahead reader.new (S.left source.new)) reader.old.taken reader.new.taken) }
    ensures bad { IfErr result (λ fault. IfSome (ahead reader.old (S.left source.old))
        (λ rest. BreaksRecords reader.old.taken rest fault)) }
    ensures reads { ReadsOn reader.old reader.new (S.left source.old) (S.left source.new) (S.faults source.old)
        (S.faults source.new) result }
{
    let mut objects = Objects::new(alloc);
    let mut refs = RefChanges::new(alloc);
    'records: loop {
        if take_group(alloc, reader, &mut objects, refs.as_slice()) {
            continue;
        }
        match next_record(alloc, reader, source, objects.as_slice(), refs.as_slice()) {
            Ok(Record::Object(object)) => objects.push(object)?,
            Ok(Record::Ref(value)) => refs.push(set(value))?,
            Ok(Record::End) => return Ok(Change { objects, refs }),
            Err(fault) => return Err(fault),
        }
    }
}
