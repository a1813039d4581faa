//! The bytes of a disk in memory and the calls that it keeps.

ghost use Rattle.std.specs.Prelude.{◌≡◌, ◌≤◌, ◌<◌, ◌+◌, ◌∷◌, ◌++◌, ◌↔◌, ◌⊎◌, [], length, false, IsTrue};
ghost use Rattle.std.specs.Vec.{vec_capacity};
ghost use Rattle.octets.specs.Causes.{one_more};
ghost use Rattle.octets.specs.Calls.{after_call, fails_next};
ghost use Rattle.edge_io.specs.Recorded.{splice};

use crate::DiskCall;
use octets::FailingCalls;

/// Counts a call, and tells whether it fails: it is listed, or past the number of calls that are taken.
pub(crate) fn fails(calls: &mut FailingCalls, recorded: usize) -> bool
    ensures answer { IsTrue result ↔ (IsTrue (fails_next calls.old) ⊎ recorded ≤ calls.old.made) }
    ensures done { result ≡ false → calls.new ≡ after_call calls.old }
    ensures made { result ≡ false → (calls.new.made ≡ calls.old.made + 1) × (calls.old.made < recorded) }
    ensures grows { calls.old.made ≤ calls.new.made }
    ensures later { calls.old.faults ≤ calls.new.faults }
    ensures quiet { result ≡ false → calls.new.faults ≡ calls.old.faults }
    ensures risen { IsTrue result → calls.new.faults ≡ one_more calls.old.faults }
{
    let past = calls.made() >= recorded as u64;
    if calls.fails() {
        return true;
    }
    if past {
        calls.add_fault();
    }
    past
}

/// Adds bytes, for which there is room.
pub(crate) fn append(bytes: &mut Vec<u8>, more: &[u8])
    requires { length bytes.old.items + length more.now ≤ vec_capacity bytes.old }
    ensures added { bytes.new.items ≡ bytes.old.items ++ more.now }
    ensures room { vec_capacity bytes.old ≤ vec_capacity bytes.new }
{
    match bytes.extend_from_slice(more) {
        Ok(()) => {}
        Err(_) => unreachable!(),
    }
}

/// Adds a call, for which there is room.
pub(crate) fn note(kept: &mut Vec<DiskCall>, call: DiskCall)
    requires { length kept.old.items < vec_capacity kept.old }
    ensures added { kept.new.items ≡ kept.old.items ++ call ∷ [] }
    ensures room { vec_capacity kept.old ≤ vec_capacity kept.new }
{
    match kept.push(call) {
        Ok(()) => {}
        Err(_) => unreachable!(),
    }
}

/// Puts bytes over what is there from a place on, and past the end.
pub(crate) fn put_over(file: &mut Vec<u8>, at: usize, bytes: &[u8])
    requires within { at ≤ length file.old.items }
    requires room { at + length bytes.now ≤ vec_capacity file.old }
    ensures bytes { file.new.items ≡ splice at bytes.now file.old.items }
    ensures room { vec_capacity file.old ≤ vec_capacity file.new }
{
    let over = bytes.len().min(file.len() - at);
    let (front, rest) = bytes.split_at(over);
    file[at..at + over].copy_from_slice(front);
    append(file, rest);
}
