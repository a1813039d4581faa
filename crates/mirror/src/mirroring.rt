//! A repository that is offered to a store.

ghost use Rattle.std.specs.Prelude.{◌≡◌, ◌≤◌, Some, length, IfErr, IfOk, IfSome};
ghost use Rattle.octets.specs.Causes.{HasCause};
ghost use Rattle.git_object.specs.Repository.{Repository, empty_repository};
ghost use Rattle.keeper_api.specs.Changes.{changed};
ghost use Rattle.keeper_api.specs.Undisturbed.{Undisturbed};
ghost use Rattle.rsl_chain.specs.Logs.{IsLogOf};
ghost use Rattle.clone_stream.specs.Taking.{IsChangeRead};
ghost use Rattle.mirror.specs.Faults.{mirror_keeper_failed, mirror_source_failed};
ghost use Rattle.mirror.specs.Mirrors.{Compares};
ghost use Rattle.mirror.specs.Offers.{Mirrors, Refuses, RefusesInput};
ghost use Rattle.mirror.specs.Reading.{BreaksAsKept, BreaksAsOffered, IsKeptFault, IsOfferedFault, IsReadFault};
ghost use Rattle.mirror.specs.Reading.{OfferEnds, RefusesRead};
ghost use Rattle.mirror.specs.Settling.{CanSettle};

use crate::comparing::compare;
use crate::mirror_faults::{fault_of_keeper, fault_of_kept, fault_of_offered, fault_of_stream};
use crate::settling::settle;
use crate::{MirrorFault, Offer};
use clone_stream::read_change;
use edge_io::Source;
use keeper_api::{Change, Keeper, MemKeeper};
use rsl_chain::Log;
use std::alloc::Global;

// The change that puts the source's repository into an empty store.
fn read_offered<S: Source>(alloc: Global, source: &mut S) -> Result<Change, MirrorFault>
    ensures found { IfOk result (λ change. IsChangeRead change (S.left source.old) (S.left source.new)) }
    ensures refused { IfErr result (λ fault. IfSome (S.left source.old)
        (λ input. RefusesRead input (S.left source.new) fault)) }
    ensures only { IfErr result IsReadFault }
    ensures cause { HasCause mirror_source_failed (S.faults source.old) (S.faults source.new) result }
{
    match read_change(alloc, source) {
        Ok(change) => Ok(change),
        Err(fault) => Err(fault_of_stream(&fault)),
    }
}

// A store of its own that holds what is offered.
fn held_apart(alloc: Global, offered: &Change) -> Result<MemKeeper, MirrorFault>
    ensures held { IfOk result (λ held. held.held ≡ changed offered.now empty_repository) }
    ensures memory { IfErr result (λ fault. fault ≡ MirrorFault.Memory) }
{
    let mut held = MemKeeper::new(alloc);
    match held.commit(alloc, offered) {
        Ok(()) => Ok(held),
        Err(_) => Err(MirrorFault::Memory),
    }
}

// The log of the kept store.
fn kept_log<R: Keeper>(alloc: Global, kept: &mut R) -> Result<Log, MirrorFault>
    ensures log { IfOk result (λ log. (r : Repository) → R.content kept.new ≡ Some r → IsLogOf r log.ids) }
    ensures few { IfOk result (λ log. length log.ids ≤ 1000000) }
    ensures broken { IfErr result (λ fault. (r : Repository) → R.content kept.new ≡ Some r → BreaksAsKept r fault) }
    ensures only { IfErr result IsKeptFault }
    ensures same { Undisturbed R.Keeper kept.old kept.new }
    ensures cause { HasCause mirror_keeper_failed (R.faults kept.old) (R.faults kept.new) result }
{
    match Log::load(alloc, kept) {
        Ok(log) => Ok(log),
        Err(fault) => Err(fault_of_kept(&fault)),
    }
}

// The log that is offered.
fn offered_log(alloc: Global, held: &mut MemKeeper) -> Result<Log, MirrorFault>
    ensures log { IfOk result (λ log. IsLogOf held.old.held log.ids) }
    ensures few { IfOk result (λ log. length log.ids ≤ 1000000) }
    ensures broken { IfErr result (BreaksAsOffered held.old.held) }
    ensures only { IfErr result IsOfferedFault }
    ensures same { held.new.held ≡ held.old.held }
{
    match Log::load(alloc, held) {
        Ok(log) => Ok(log),
        Err(fault) => Err(fault_of_offered(&fault)),
    }
}

// What the offered log is to that of the kept store.
fn compared<R: Keeper>(
    alloc: Global,
    held: &mut MemKeeper,
    kept: &mut R,
) -> Result<Offer, MirrorFault>
    ensures compares { IfOk result (λ offer. (r : Repository) → R.content kept.new ≡ Some r
        → Compares r held.old.held offer) }
    ensures can { IfOk result (CanSettle held.old.held) }
    ensures kept { IfErr result (λ fault. (r : Repository) → R.content kept.new ≡ Some r → BreaksAsKept r fault) }
    ensures offered { IfErr result (BreaksAsOffered held.old.held) }
    ensures held { held.new.held ≡ held.old.held }
    ensures same { Undisturbed R.Keeper kept.old kept.new }
    ensures cause { HasCause mirror_keeper_failed (R.faults kept.old) (R.faults kept.new) result }
{
    let ours = match kept_log(alloc, kept) {
        Ok(log) => log,
        Err(fault) => return Err(fault),
    };
    let theirs = match offered_log(alloc, held) {
        Ok(log) => log,
        Err(fault) => return Err(fault),
    };
    Ok(compare(ours.ids.as_slice(), theirs.ids.as_slice()))
}

// Offers what a change would make of an empty store.
fn offer_change<R: Keeper>(
    alloc: Global,
    offered: Change,
    kept: &mut R,
) -> Result<Offer, MirrorFault>
    ensures ends { OfferEnds R.Keeper kept.old kept.new (changed offered empty_repository) result }
    ensures cause { HasCause mirror_keeper_failed (R.faults kept.old) (R.faults kept.new) result }
{
    let mut held = match held_apart(alloc, &offered) {
        Ok(held) => held,
        Err(fault) => return Err(fault),
    };
    let offer = match compared(alloc, &mut held, kept) {
        Ok(offer) => offer,
        Err(fault) => return Err(fault),
    };
    match settle(alloc, kept, offered, &mut held, &offer) {
        Ok(()) => Ok(offer),
        Err(fault) => Err(fault_of_keeper(&fault)),
    }
}

/// Offers the repository of the source's stream to the kept store. Where its log goes on where the kept one ends, the
/// store takes it: all of its objects, and its references in the place of those that are there, but for those below
/// `refs/mirror/`, which stay and are never taken. Where the logs part, the store keeps the offered entry at which
/// they do and a reference to it, `refs/mirror/fork/<number>/<id>`, and nothing else. Else nothing is changed; all is
/// one commit.
///
/// A source that gives no stream is refused first, then a kept log that breaks, then an offered one. After `Failed`
/// the store is as it was or what the offer makes of it, after each other refusal as it was.
pub fn offer<S: Source, R: Keeper>(
    alloc: Global,
    source: &mut S,
    kept: &mut R,
) -> Result<Offer, MirrorFault>
    ensures ok { IfOk result (Mirrors R.Keeper (S.left source.old) (S.left source.new) kept.old kept.new) }
    ensures input { IfErr result (λ fault. IfSome (S.left source.old)
        (λ input. RefusesInput input (S.left source.new) fault)) }
    ensures refused { IfErr result (Refuses R.Keeper (S.left source.old) (S.left source.new) kept.old kept.new) }
    ensures source_cause { HasCause mirror_source_failed (S.faults source.old) (S.faults source.new) result }
    ensures kept_cause { HasCause mirror_keeper_failed (R.faults kept.old) (R.faults kept.new) result }
{
    let offered = match read_offered(alloc, source) {
        Ok(change) => change,
        Err(fault) => return Err(fault),
    };
    offer_change(alloc, offered, kept)
}
