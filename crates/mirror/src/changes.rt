//! The changes by which a store takes an offer.

ghost use Rattle.std.specs.Prelude.{◌≡◌, ◌≤◌, ◌++◌, ◌∷◌, [], IfOk, OnOk, Some};
ghost use Rattle.std.specs.List.{filter};
ghost use Rattle.std.specs.Option.{option_map};
ghost use Rattle.octets.specs.BytesMap.{entry_after};
ghost use Rattle.octets.specs.Causes.{HasCause};
ghost use Rattle.git_object.specs.Objects.{pair_id};
ghost use Rattle.git_object.specs.Repository.{Repository};
ghost use Rattle.keeper_api.specs.Faults.{keeper_failed};
ghost use Rattle.keeper_api.specs.Undisturbed.{Undisturbed};
ghost use Rattle.mirror.specs.Changes.{fork_change, going, going_one, is_foreign, is_new, is_same, new_objects};
ghost use Rattle.mirror.specs.Changes.{take_change};

use crate::names::{fork_name, is_own};
use git_object::{Memory, Object, ObjectId, Objects, RefName};
use keeper_api::{Change, Keeper, KeeperFault, MemKeeper, RefChange, RefChanges};
use octets::Copied;
use std::alloc::Global;

// One kind and one body.
fn is_same(a: &Object, b: &Object) -> bool
    ensures { result ≡ is_same a.now b.now }
{
    a.kind().name() == b.kind().name() && a.body() == b.body()
}

// Whether what is offered at an id, which lies in `held`, is not what is kept there.
#[tactic(auto, unfolding(crate::specs::Changes::is_new))]
fn is_new<R: Keeper>(
    alloc: Global,
    kept: &mut R,
    held: &mut MemKeeper,
    id: &ObjectId,
) -> Result<bool, KeeperFault>
    ensures new { IfOk result (λ new. (r : Repository) → R.content kept.new ≡ Some r
        → new ≡ is_new r.objects held.old.held.objects id.now) }
    ensures held { held.new.held ≡ held.old.held }
    ensures same { Undisturbed R.Keeper kept.old kept.new }
    ensures cause { HasCause keeper_failed (R.faults kept.old) (R.faults kept.new) result }
{
    let Some(ours) = kept.read_object(alloc, id)? else {
        return Ok(true);
    };
    match held.read_object(alloc, id) {
        Ok(Some(theirs)) => Ok(!is_same(&ours, &theirs)),
        Ok(None) => Ok(true),
        Err(_) => Err(KeeperFault::Memory),
    }
}

// The offered objects that are not kept as they are offered.
fn new_objects<R: Keeper>(
    alloc: Global,
    kept: &mut R,
    held: &mut MemKeeper,
    offered: &[Object],
) -> Result<Objects, KeeperFault>
    ensures new { IfOk result (λ news. (r : Repository) → R.content kept.new ≡ Some r
        → news ≡ new_objects r.objects held.old.held.objects offered.now) }
    ensures same { Undisturbed R.Keeper kept.old kept.new }
    ensures cause { HasCause keeper_failed (R.faults kept.old) (R.faults kept.new) result }
{
    let mut news = Objects::new(alloc);
    'offered: for object in offered {
        if is_new(alloc, kept, held, &object.id())? {
            news.push(object.copied()?)?;
        }
    }
    Ok(news)
}

// The name of the reference after this one.
fn next_name<R: Keeper>(
    alloc: Global,
    kept: &mut R,
    last: &Option<RefName>,
) -> Result<Option<RefName>, KeeperFault>
    ensures next { IfOk result (λ found. (r : Repository) → R.content kept.new ≡ Some r
        → found ≡ option_map (λ e. e.0) (entry_after r.refs last.now)) }
    ensures same { Undisturbed R.Keeper kept.old kept.new }
    ensures cause { HasCause keeper_failed (R.faults kept.old) (R.faults kept.new) result }
{
    match kept.next_ref_after(alloc, last.as_ref())? {
        Some(value) => Ok(Some(value.name)),
        None => Ok(None),
    }
}

// Adds that a reference goes, unless it is the mirror's own.
fn add_going(gone: &mut RefChanges, name: &RefName) -> Result<(), Memory>
    ensures { OnOk result (gone.new ≡ gone.old ++ going_one name.now) }
{
    if is_own(name) {
        return Ok(());
    }
    gone.push(RefChange {
        name: name.copied()?,
        to: None,
    })
}

// That each reference of the store goes, but for the mirror's own.
fn going<R: Keeper>(alloc: Global, kept: &mut R) -> Result<RefChanges, KeeperFault>
    ensures gone { IfOk result (λ gone. (r : Repository) → R.content kept.new ≡ Some r → gone ≡ going r.refs) }
    ensures same { Undisturbed R.Keeper kept.old kept.new }
    ensures cause { HasCause keeper_failed (R.faults kept.old) (R.faults kept.new) result }
{
    let mut gone = RefChanges::new(alloc);
    let mut last = None;
    // A store has fewer references than there are numbers, since each name is kept in memory here.
    'refs: for _ in 0..u64::MAX {
        let Some(name) = next_name(alloc, kept, &last)? else {
            return Ok(gone);
        };
        add_going(&mut gone, &name)?;
        last = Some(name);
    }
    Err(KeeperFault::Memory)
}

// Adds the offered changes of references that are not the mirror's own.
fn add_foreign(refs: &mut RefChanges, offered: &[RefChange]) -> Result<(), Memory>
    ensures { OnOk result (refs.new ≡ refs.old ++ filter is_foreign offered.now) }
{
    'offered: for change in offered {
        if !is_own(&change.name) {
            refs.push(change.copied()?)?;
        }
    }
    Ok(())
}

/// The change by which a store takes what another change would make of an empty one, which lies in `held`: all of its
/// objects, of which those that are kept so are not written again, and its references in the place of those that are
/// there, but for those that are the mirror's own.
pub fn take_change<R: Keeper>(
    alloc: Global,
    kept: &mut R,
    held: &mut MemKeeper,
    offered: Change,
) -> Result<Change, KeeperFault>
    ensures change { IfOk result (λ change. (r : Repository) → R.content kept.new ≡ Some r
        → change ≡ take_change offered held.old.held.objects r) }
    ensures same { Undisturbed R.Keeper kept.old kept.new }
    ensures cause { HasCause keeper_failed (R.faults kept.old) (R.faults kept.new) result }
{
    let objects = new_objects(alloc, kept, held, offered.objects.as_slice())?;
    let mut refs = going(alloc, kept)?;
    add_foreign(&mut refs, offered.refs.as_slice())?;
    Ok(Change { objects, refs })
}

/// The change by which a store keeps an entry of another past, and a reference to it.
pub fn fork_change(
    alloc: Global,
    number: u64,
    id: &ObjectId,
    entry: Object,
) -> Result<Change, Memory>
    requires { number ≤ 1000000 }
    ensures { IfOk result (λ change. change ≡ fork_change number id.now entry) }
{
    let mut objects = Objects::new(alloc);
    let mut refs = RefChanges::new(alloc);
    let name = fork_name(alloc, number, id)?;
    objects.push(entry)?;
    refs.push(RefChange {
        name,
        to: Some(*id),
    })?;
    Ok(Change { objects, refs })
}
