//! The log of a store.

ghost use Rattle.std.specs.Prelude.{◌≡◌, ◌≤◌, ◌+◌, ◌↔◌, length, reverse, IfOk, IfErr, IfSome, IsTrue, Some, None};
ghost use Rattle.octets.specs.Causes.{HasCause, one_more};
ghost use Rattle.git_object.specs.Objects.{pair_id};
ghost use Rattle.git_object.specs.Repository.{Repository};
ghost use Rattle.keeper_api.specs.Undisturbed.{Undisturbed};
ghost use Rattle.rsl_chain.specs.Chain.{IsBreak, IsHead, IsLog};
ghost use Rattle.rsl_chain.specs.Logs.{IsBrokenAs, IsBrokenFrom, IsLogOf, IsNamed, IsNoEntryAs, IsUnbroken, entry_at};
ghost use Rattle.rsl_chain.specs.Logs.{entry_of_pair, head_from, head_of, head_of_pair, heads_of, log_failed};
ghost use Rattle.rsl_chain.specs.Reading.{IsBadAs, reading};

use crate::Entry;
use crate::entry_faults::EntryFault;
use crate::heads::Head;
use crate::log_faults::LogFault;
use crate::reading::{read_as, read_lines};
use git_object::{Ids, Kind, Object, ObjectId, RefName};
use keeper_api::{Keeper, load_object};
use octets::Memory;
use std::alloc::Global;

/// The log: the ids of its entries, oldest first.
#[derive(Drop)]
pub struct Log {
    pub ids: Ids,
}

fn head_of(alloc: Global, body: &[u8]) -> Result<Head, EntryFault>
    ensures read { IfOk result (λ head. head_from (reading body.now) ≡ Some head) }
    ensures bad { IfErr result (IsBadAs (reading body.now)) }
{
    let (place, _parts) = read_lines(alloc, body, false)?;
    Ok(Head {
        number: place.number,
        parent: place.parent,
    })
}

// The head of an entry's body, or None where the body is no entry's.
#[tactic(auto, unfolding(crate::specs::Logs::head_of))]
fn read_head(alloc: Global, body: &[u8]) -> Result<Option<Head>, Memory>
    ensures head { IfOk result (λ found. found ≡ head_of body.now) }
{
    match head_of(alloc, body) {
        Ok(head) => Ok(Some(head)),
        Err(EntryFault::BadEntry { line: _ }) => Ok(None),
        Err(EntryFault::Memory) => Err(Memory),
    }
}

fn object_head(alloc: Global, object: &Object) -> Result<Option<Head>, Memory>
    ensures { IfOk result (λ found. found ≡ head_of_pair object.now.kind object.now.body) }
{
    match object.kind() {
        Kind::Commit => read_head(alloc, object.body()),
        Kind::Blob => Ok(None),
        Kind::Tree => Ok(None),
        Kind::Tag => Ok(None),
    }
}

// The head of the entry that an id leads to. It reads one object.
fn load_head<R: Keeper>(
    alloc: Global,
    keeper: &mut R,
    id: &ObjectId,
) -> Result<Option<Head>, LogFault>
    ensures answer { IfOk result (λ found. (r : Repository) → R.content keeper.new ≡ Some r → heads_of r id.now ≡ found) }
    ensures valid { IfOk result (λ found. IfSome found IsHead) }
    ensures unbroken { IfErr result IsUnbroken }
    ensures same { Undisturbed R.Keeper keeper.old keeper.new }
    ensures cause { HasCause log_failed (R.faults keeper.old) (R.faults keeper.new) result }
    ensures reads { R.reads keeper.new ≡ one_more (R.reads keeper.old) }
{
    match load_object(alloc, keeper, id)? {
        Some(object) => Ok(object_head(alloc, &object)?),
        None => Ok(None),
    }
}

/// The entry that an object is, under the id that it has already: nothing is hashed.
pub fn object_entry(alloc: Global, object: &Object) -> Result<Option<Entry>, Memory>
    ensures { IfOk result (λ found. found ≡ entry_of_pair (pair_id object.now) object.now.kind object.now.body) }
{
    match object.kind() {
        Kind::Commit => match read_as(alloc, object.id(), object.body()) {
            Ok(entry) => Ok(Some(entry)),
            Err(EntryFault::BadEntry { line: _ }) => Ok(None),
            Err(EntryFault::Memory) => Err(Memory),
        },
        Kind::Blob => Ok(None),
        Kind::Tree => Ok(None),
        Kind::Tag => Ok(None),
    }
}

/// The entry that stands at an id. It reads one object. `Broken` names the id, and comes exactly where what is there
/// is missing, is no commit, or breaks the grammar of entries.
pub fn read_entry<R: Keeper>(
    alloc: Global,
    keeper: &mut R,
    id: &ObjectId,
) -> Result<Entry, LogFault>
    ensures entry { IfOk result (λ entry. (r : Repository) → R.content keeper.new ≡ Some r
        → entry_at r id.now ≡ Some entry) }
    ensures broken { IfErr result (λ fault. (r : Repository) → R.content keeper.new ≡ Some r
        → IsNoEntryAs r id.now fault) }
    ensures named { IfErr result (IsNamed id.now) }
    ensures own { IfOk result (λ entry. entry.id ≡ id.now) }
    ensures same { Undisturbed R.Keeper keeper.old keeper.new }
    ensures cause { HasCause log_failed (R.faults keeper.old) (R.faults keeper.new) result }
    ensures reads { R.reads keeper.new ≡ one_more (R.reads keeper.old) }
{
    let Some(object) = load_object(alloc, keeper, id)? else {
        return Err(LogFault::Broken { id: *id });
    };
    match object_entry(alloc, &object)? {
        Some(entry) => Ok(entry),
        None => Err(LogFault::Broken { id: *id }),
    }
}

fn is_wanted(wanted: Option<u64>, number: u64) -> bool
    ensures { IsTrue result ↔ IfSome wanted (λ n. number ≡ n) }
{
    match wanted {
        Some(wanted) => number == wanted,
        None => true,
    }
}

// The ids of the entries back from the tip, newest first.
fn walk_back<R: Keeper>(alloc: Global, keeper: &mut R, tip: &ObjectId) -> Result<Ids, LogFault>
    ensures log { IfOk result (λ ids. (r : Repository) → R.content keeper.new ≡ Some r
        → IsLog (heads_of r) (Some tip.now) (reverse ids)) }
    ensures few { IfOk result (λ ids. length ids ≤ 1000000) }
    ensures broken { IfErr result (λ fault. (r : Repository) → R.content keeper.new ≡ Some r
        → IsBrokenFrom r tip.now fault) }
    ensures same { Undisturbed R.Keeper keeper.old keeper.new }
    ensures cause { HasCause log_failed (R.faults keeper.old) (R.faults keeper.new) result }
    ensures reads { IfOk result (λ ids. R.reads keeper.new ≤ R.reads keeper.old + length ids) }
    ensures most { R.reads keeper.new ≤ R.reads keeper.old + 1000000 }
{
    let mut ids = Ids::new(alloc);
    let mut at = *tip;
    let mut wanted: Option<u64> = None;
    'entries: loop {
        let Some(head) = load_head(alloc, keeper, &at)? else {
            return Err(LogFault::Broken { id: at });
        };
        if !is_wanted(wanted, head.number) {
            return Err(LogFault::Broken { id: at });
        }
        ids.push(at)?;
        let Some(parent) = head.parent else {
            return Ok(ids);
        };
        at = parent;
        wanted = Some(head.number - 1);
    }
}

impl Log {
    /// The log of a store's repository: back from the tip over the only parents to the first entry. It reads each
    /// entry's commit once and holds one at a time, and 32 bytes for each entry. `Broken` names the first commit from
    /// the tip that is missing or no entry, or whose number is not one less than its child's.
    pub fn load<R: Keeper>(alloc: Global, keeper: &mut R) -> Result<Log, LogFault>
        ensures log { IfOk result (λ log. (r : Repository) → R.content keeper.new ≡ Some r → IsLogOf r log.ids) }
        ensures few { IfOk result (λ log. length log.ids ≤ 1000000) }
        ensures broken { IfErr result (λ fault. (r : Repository) → R.content keeper.new ≡ Some r → IsBrokenAs r fault) }
        ensures same { Undisturbed R.Keeper keeper.old keeper.new }
        ensures cause { HasCause log_failed (R.faults keeper.old) (R.faults keeper.new) result }
        ensures reads { IfOk result (λ log. R.reads keeper.new ≤ R.reads keeper.old + length log.ids) }
        ensures most { R.reads keeper.new ≤ R.reads keeper.old + 1000000 }
    {
        let name = RefName::of_log(alloc)?;
        let Some(tip) = keeper.read_ref(alloc, &name)? else {
            return Ok(Log {
                ids: Ids::new(alloc),
            });
        };
        let mut ids = walk_back(alloc, keeper, &tip)?;
        ids.reverse();
        Ok(Log { ids })
    }
}
