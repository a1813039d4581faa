//! A keeper's repository as a stream to a sink.

ghost use Rattle.std.specs.Prelude.{◌≡◌, ◌≤◌, ◌+◌, length, IfErr, IfOk, None, OnOk, Some};
ghost use Rattle.std.specs.FinMap.{entries};
ghost use Rattle.octets.specs.Causes.{HasCause};
ghost use Rattle.clone_stream.specs.Faults.{export_keeper_failed, export_sink_failed};
ghost use Rattle.git_object.specs.Repository.{Repository};
ghost use Rattle.keeper_api.specs.Undisturbed.{Undisturbed};
ghost use Rattle.clone_stream.specs.Exporting.{Exports, RefusesExport};
ghost use Rattle.clone_stream.specs.Exports.{IsDamaged, IsNever, Looks, Runs, Steps, objects_in, refs_in};
ghost use Rattle.clone_stream.specs.Streams.{IsOwn, IsRef, largest_stream, object_record, ref_record};

use crate::ExportFault;
use crate::record_writes::{put, put_object, put_ref};
use edge_io::Sink;
use git_object::{Object, ObjectId, RefName};
use keeper_api::{Keeper, load_object};
use std::alloc::Global;

// The object after an id, with its own: `Damaged` where what is kept there is none.
fn next_object<R: Keeper>(
    alloc: Global,
    keeper: &mut R,
    last: &Option<ObjectId>,
) -> Result<Option<(ObjectId, Object)>, ExportFault>
    ensures looks { Looks IsOwn IsDamaged objects_in (R.content keeper.new) last.now result }
    ensures same { Undisturbed R.Keeper keeper.old keeper.new }
    ensures cause { HasCause export_keeper_failed (R.faults keeper.old) (R.faults keeper.new) result }
    ensures reads { R.reads keeper.new ≤ R.reads keeper.old + 1 }
    ensures end { IfOk result (λ found. found ≡ None → R.reads keeper.new ≡ R.reads keeper.old) }
{
    let Some(id) = keeper.next_object_after(alloc, last.as_ref())? else {
        return Ok(None);
    };
    let _ = id.as_bytes();
    match load_object(alloc, keeper, &id)? {
        Some(object) => Ok(Some((id, object))),
        None => Err(ExportFault::Damaged { id }),
    }
}

// The reference after a name.
fn next_ref<R: Keeper>(
    alloc: Global,
    keeper: &mut R,
    last: &Option<RefName>,
) -> Result<Option<(RefName, ObjectId)>, ExportFault>
    ensures looks { Looks IsRef IsNever refs_in (R.content keeper.new) last.now result }
    ensures same { Undisturbed R.Keeper keeper.old keeper.new }
    ensures cause { HasCause export_keeper_failed (R.faults keeper.old) (R.faults keeper.new) result }
    ensures reads { R.reads keeper.new ≡ R.reads keeper.old }
{
    let Some(value) = keeper.next_ref_after(alloc, last.as_ref())? else {
        return Ok(None);
    };
    let _ = value.name.text();
    let _ = value.id.as_bytes();
    Ok(Some((value.name, value.id)))
}

// Writes the object after an id, and answers its id and how many bytes there are then; None where there is none.
fn write_object<K: Sink, R: Keeper>(
    alloc: Global,
    keeper: &mut R,
    sink: &mut K,
    last: &Option<ObjectId>,
    written: u64,
) -> Result<Option<(ObjectId, u64)>, ExportFault>
    requires { written ≤ largest_stream }
    ensures steps { Steps object_record IsOwn IsDamaged objects_in (R.content keeper.new) last.now written
        (K.contents sink.old) (K.contents sink.new) result }
    ensures same { Undisturbed R.Keeper keeper.old keeper.new }
    ensures keeper_cause { HasCause export_keeper_failed (R.faults keeper.old) (R.faults keeper.new) result }
    ensures sink_cause { HasCause export_sink_failed (K.faults sink.old) (K.faults sink.new) result }
    ensures reads { R.reads keeper.new ≤ R.reads keeper.old + 1 }
    ensures end { IfOk result (λ found. found ≡ None → R.reads keeper.new ≡ R.reads keeper.old) }
{
    let (id, object) = match next_object(alloc, keeper, last) {
        Ok(Some(entry)) => entry,
        Ok(None) => return Ok(None),
        Err(fault) => return Err(fault),
    };
    match put_object(alloc, sink, &id, &object, written) {
        Ok(now) => Ok(Some((id, now))),
        Err(fault) => Err(fault),
    }
}

// Writes the reference after a name, and answers its name and how many bytes there are then; None where there
// is none.
fn write_ref<K: Sink, R: Keeper>(
    alloc: Global,
    keeper: &mut R,
    sink: &mut K,
    last: &Option<RefName>,
    written: u64,
) -> Result<Option<(RefName, u64)>, ExportFault>
    requires { written ≤ largest_stream }
    ensures steps { Steps ref_record IsRef IsNever refs_in (R.content keeper.new) last.now written (K.contents sink.old)
        (K.contents sink.new) result }
    ensures same { Undisturbed R.Keeper keeper.old keeper.new }
    ensures keeper_cause { HasCause export_keeper_failed (R.faults keeper.old) (R.faults keeper.new) result }
    ensures sink_cause { HasCause export_sink_failed (K.faults sink.old) (K.faults sink.new) result }
    ensures reads { R.reads keeper.new ≡ R.reads keeper.old }
{
    let (name, id) = match next_ref(alloc, keeper, last) {
        Ok(Some(entry)) => entry,
        Ok(None) => return Ok(None),
        Err(fault) => return Err(fault),
    };
    match put_ref(sink, &name, &id, written) {
        Ok(now) => Ok(Some((name, now))),
        Err(fault) => Err(fault),
    }
}

// Writes all objects by rising id after so many bytes, and answers how many there are then.
fn write_objects<K: Sink, R: Keeper>(
    alloc: Global,
    keeper: &mut R,
    sink: &mut K,
    start: u64,
) -> Result<u64, ExportFault>
    requires { start ≤ largest_stream }
    ensures runs { Runs object_record IsOwn IsDamaged objects_in (R.content keeper.new) start (K.contents sink.old)
        (K.contents sink.new) result }
    ensures same { Undisturbed R.Keeper keeper.old keeper.new }
    ensures keeper_cause { HasCause export_keeper_failed (R.faults keeper.old) (R.faults keeper.new) result }
    ensures sink_cause { HasCause export_sink_failed (K.faults sink.old) (K.faults sink.new) result }
    ensures reads { OnOk result ((r : Repository) → R.content keeper.new ≡ Some r
        → R.reads keeper.new ≤ R.reads keeper.old + length (entries r.objects)) }
{
    let mut last = None;
    let mut written = start;
    'objects: loop {
        match write_object(alloc, keeper, sink, &last, written) {
            Ok(Some((id, now))) => {
                last = Some(id);
                written = now;
            }
            Ok(None) => return Ok(written),
            Err(fault) => return Err(fault),
        }
    }
}

// Writes all references by rising name after so many bytes, and answers how many there are then.
fn write_refs<K: Sink, R: Keeper>(
    alloc: Global,
    keeper: &mut R,
    sink: &mut K,
    start: u64,
) -> Result<u64, ExportFault>
    requires { start ≤ largest_stream }
    ensures runs { Runs ref_record IsRef IsNever refs_in (R.content keeper.new) start (K.contents sink.old)
        (K.contents sink.new) result }
    ensures same { Undisturbed R.Keeper keeper.old keeper.new }
    ensures keeper_cause { HasCause export_keeper_failed (R.faults keeper.old) (R.faults keeper.new) result }
    ensures sink_cause { HasCause export_sink_failed (K.faults sink.old) (K.faults sink.new) result }
    ensures reads { R.reads keeper.new ≡ R.reads keeper.old }
{
    let mut last = None;
    let mut written = start;
    'refs: loop {
        match write_ref(alloc, keeper, sink, &last, written) {
            Ok(Some((name, now))) => {
                last = Some(name);
                written = now;
            }
            Ok(None) => return Ok(written),
            Err(fault) => return Err(fault),
        }
    }
}

/// Writes the stream of a keeper's repository: its one text. `Damaged` comes exactly where the object is the first
/// that is kept damaged and what comes before its record is within 1 GiB, and `TooLarge` exactly where the text
/// passes 1 GiB before that; exactly the records before that one then went out. `KeeperFailed` and `SinkFailed`
/// come exactly where the keeper or the sink counted a fault. After these and want of memory a front of the text
/// went out, which has no damaged object in it. The keeper is as before. Each object is read once.
pub fn write_stream<K: Sink, R: Keeper>(
    alloc: Global,
    keeper: &mut R,
    sink: &mut K,
) -> Result<(), ExportFault>
    ensures ok { OnOk result (Exports (R.content keeper.new) (K.contents sink.old) (K.contents sink.new)) }
    ensures refused { IfErr result (RefusesExport (R.content keeper.new) (K.contents sink.old) (K.contents sink.new)) }
    ensures same { Undisturbed R.Keeper keeper.old keeper.new }
    ensures keeper_cause { HasCause export_keeper_failed (R.faults keeper.old) (R.faults keeper.new) result }
    ensures sink_cause { HasCause export_sink_failed (K.faults sink.old) (K.faults sink.new) result }
    ensures reads { OnOk result ((r : Repository) → R.content keeper.new ≡ Some r
        → R.reads keeper.new ≤ R.reads keeper.old + length (entries r.objects)) }
{
    let written = match put(sink, b"gittuf-stream 1\n", 0) {
        Ok(now) => now,
        Err(fault) => return Err(fault),
    };
    let written = match write_objects(alloc, keeper, sink, written) {
        Ok(now) => now,
        Err(fault) => return Err(fault),
    };
    let written = match write_refs(alloc, keeper, sink, written) {
        Ok(now) => now,
        Err(fault) => return Err(fault),
    };
    match put(sink, b"end\n", written) {
        Ok(_) => Ok(()),
        Err(fault) => Err(fault),
    }
}
