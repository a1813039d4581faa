//! The shop.

ghost use Rattle.std.specs.Prelude.{◌≡◌, IfOk, OnErr, Some, [], ◌∷◌, length};
ghost use Rattle.git_object.specs.Names.{log_name};
ghost use Rattle.octets.specs.Causes.{HasCause};
ghost use Rattle.desk_turns.specs.Histories.{History, IsAtStart};
ghost use Rattle.tests_turns.specs.Shops.{Stands, AddsOne, Answers, refused_first, shop_failed};

use git_object::{Memory, ObjectId, Objects, RefName};
use keeper_api::{Change, Keeper, KeeperFault, RefChange, RefChanges};
use std::alloc::Global;

/// An entry, and the seat that added it.
#[derive(Drop)]
pub struct Logged {
    pub id: ObjectId,
    pub seat: u32,
}

/// Why nothing was added.
#[derive(Clone, Copy, Debug, PartialEq, Eq, Drop)]
pub enum Refusal {
    /// The store may have an entry that the log has not.
    InDoubt,
    /// The entry was to come after another than the last one, whose number this is.
    Stale { number: u64 },
    /// The store failed.
    Fault,
    Memory,
}

/// A log over a store. While `clean` is not set, the store may have an entry that the log has not.
#[derive(Drop)]
pub struct Shop<R> {
    pub log: Vec<Logged>,
    pub keeper: R,
    pub clean: bool,
}

const LIMIT: usize = 1 << 60;

// The change that puts the log reference at an id.
fn put_of(alloc: Global, id: &ObjectId) -> Result<Change, Memory>
    ensures { IfOk result (λ c. c.refs ≡ record { name = log_name; to = Some id.now } ∷ []) }
{
    let mut refs = RefChanges::new(alloc);
    refs.push(RefChange {
        name: RefName::of_log(alloc)?,
        to: Some(*id),
    })?;
    Ok(Change {
        objects: Objects::new(alloc),
        refs,
    })
}

impl<R> Shop<R> {
    // Why an entry that is to come after the one of this number is refused, if it is, before the store is asked.
    fn refused_first(&self, after: Option<u64>) -> Option<Refusal>
        ensures { result ≡ refused_first self.now.clean (length self.now.log.items) after }
    {
        let number = self.log.len() as u64;
        if !self.clean {
            return Some(Refusal::InDoubt);
        }
        match after {
            Some(last) if last != number => Some(Refusal::Stale { number }),
            _ => None,
        }
    }
}

impl<R: Keeper> Shop<R> {
    /// A shop with no entry over a store. It takes no memory.
    pub fn new(alloc: Global, keeper: R) -> Shop<R>
        ensures { (h : History) × Stands R.content R.faults result h × IsAtStart h }
    {
        Shop {
            log: Vec::new(alloc),
            keeper,
            clean: true,
        }
    }

    /// Adds an entry after the one of this number, or after any, and answers its number.
    pub fn step(
        &mut self,
        alloc: Global,
        seat: u32,
        after: Option<u64>,
        id: &ObjectId,
    ) -> Result<u64, Refusal>
        ensures first { Answers (refused_first self.old.clean (length self.old.log.items) after) result }
        ensures done { (h : History) → Stands R.content R.faults self.old h
            → IfOk result (λ number. AddsOne R.content R.faults h seat id.now self.new number) }
        ensures refused { (h : History) → Stands R.content R.faults self.old h
            → OnErr result (Stands R.content R.faults self.new h) }
        ensures cause { HasCause shop_failed (R.faults self.old.keeper) (R.faults self.new.keeper) result }
    {
        if let Some(refusal) = self.refused_first(after) {
            return Err(refusal);
        }
        if self.log.len() >= LIMIT || self.log.reserve(1).is_err() {
            return Err(Refusal::Memory);
        }
        let Ok(change) = put_of(alloc, id) else {
            return Err(Refusal::Memory);
        };
        match self.keeper.commit(alloc, &change) {
            Ok(()) => {
                self.log.push_reserved(Logged { id: *id, seat });
                Ok(self.log.len() as u64)
            }
            Err(KeeperFault::Failed) => {
                self.clean = false;
                Err(Refusal::Fault)
            }
            Err(KeeperFault::Memory) => Err(Refusal::Memory),
        }
    }
}
