//! Settling an entry in doubt.

ghost use Rattle.std.specs.Prelude.{◌≡◌, Some, None, IfOk};
ghost use Rattle.std.specs.FinMap.{get};
ghost use Rattle.octets.specs.Causes.{HasCause};
ghost use Rattle.git_object.specs.Names.{log_name};
ghost use Rattle.git_object.specs.Repository.{Repository};
ghost use Rattle.keeper_api.specs.Faults.{keeper_failed};
ghost use Rattle.keeper_api.specs.Undisturbed.{Undisturbed};
ghost use Rattle.pushes.specs.Steps.{tip_of};
ghost use Rattle.desk_turns.specs.Settling.{KeepsAs, Settles, is_unsettled, settled_as, tip_change};

use crate::{DeskLog, Settled};
use git_object::{ObjectId, Objects, RefName};
use keeper_api::{Change, Keeper, KeeperFault, RefChange, RefChanges, commit_change};
use octets::Memory;
use pushes::{Row, id_or_zeros, same_tip, tip_of};
use std::alloc::Global;

// The value of the log's reference.
fn log_tip<R: Keeper>(alloc: Global, keeper: &mut R) -> Result<Option<ObjectId>, KeeperFault>
    ensures answer { IfOk result (λ found. (r : Repository) → R.content keeper.new ≡ Some r
        → found ≡ get r.refs log_name) }
    ensures same { Undisturbed R.Keeper keeper.old keeper.new }
    ensures cause { HasCause keeper_failed (R.faults keeper.old) (R.faults keeper.new) result }
{
    let name = RefName::of_log(alloc)?;
    keeper.read_ref(alloc, &name)
}

// The change that puts the log's reference there.
fn tip_change(alloc: Global, value: &Option<ObjectId>) -> Result<Change, Memory>
    ensures { IfOk result (λ change. change ≡ tip_change value.now) }
{
    let mut refs = RefChanges::new(alloc);
    refs.push(RefChange {
        name: RefName::of_log(alloc)?,
        to: *value,
    })?;
    Ok(Change {
        objects: Objects::new(alloc),
        refs,
    })
}

// Puts the log's reference where it is.
fn keep_tip<R: Keeper>(
    alloc: Global,
    keeper: &mut R,
    value: &Option<ObjectId>,
) -> Result<(), KeeperFault>
    requires { (r : Repository) → R.content keeper.old ≡ Some r → get r.refs log_name ≡ value.now }
    ensures keeps { KeepsAs R.Keeper keeper.old keeper.new value.now result }
    ensures cause { HasCause keeper_failed (R.faults keeper.old) (R.faults keeper.new) result }
{
    let change = tip_change(alloc, value)?;
    match commit_change(alloc, &change, keeper) {
        Ok(()) => Ok(()),
        Err(KeeperFault::Failed) => Err(KeeperFault::Failed),
        Err(KeeperFault::Memory) => Err(KeeperFault::Memory),
    }
}

impl DeskLog {
    // The entry in doubt is not there.
    fn drop_doubt<R: Keeper>(
        &mut self,
        alloc: Global,
        keeper: &mut R,
        tip: &Option<ObjectId>,
    ) -> Settled
        requires there { (r : Repository) → R.content keeper.old ≡ Some r → get r.refs log_name ≡ tip.now }
        requires tip { tip.now ≡ tip_of self.old.log }
        ensures settles { Settles R.Keeper keeper.old keeper.new self.old self.new result }
        ensures cause { HasCause is_unsettled (R.faults keeper.old) (R.faults keeper.new) (settled_as result) }
    {
        match keep_tip(alloc, keeper, tip) {
            Ok(()) => {
                self.doubt = None;
                Settled::Clear
            }
            Err(KeeperFault::Failed) => Settled::Fault,
            Err(KeeperFault::Memory) => Settled::Memory,
        }
    }

    // The entry in doubt is there.
    fn take_in<R: Keeper>(&mut self, alloc: Global, keeper: &mut R, id: &ObjectId) -> Settled
        requires there { (r : Repository) → R.content keeper.old ≡ Some r → get r.refs log_name ≡ Some id.now }
        requires doubt { self.old.doubt ≡ Some id.now }
        ensures settles { Settles R.Keeper keeper.old keeper.new self.old self.new result }
        ensures cause { HasCause is_unsettled (R.faults keeper.old) (R.faults keeper.new) (settled_as result) }
    {
        if self.rows.push(Row { id: *id, seat: 0 }).is_err() {
            return Settled::Memory;
        }
        match keep_tip(alloc, keeper, &Some(*id)) {
            Ok(()) => {
                self.doubt = None;
                Settled::TookIn { id: *id }
            }
            Err(KeeperFault::Failed) => {
                self.rows.pop();
                Settled::Fault
            }
            Err(KeeperFault::Memory) => {
                self.rows.pop();
                Settled::Memory
            }
        }
    }

    /// Ends a doubt where the log's reference is at the tip or at the entry in doubt. It puts the reference there
    /// again, so that a stop leaves nothing else. Where nothing is in doubt it calls nothing.
    pub fn settle<R: Keeper>(&mut self, alloc: Global, keeper: &mut R) -> Settled
        ensures settles { Settles R.Keeper keeper.old keeper.new self.old self.new result }
        ensures free { self.old.doubt ≡ None → keeper.new ≡ keeper.old }
        ensures cause { HasCause is_unsettled (R.faults keeper.old) (R.faults keeper.new) (settled_as result) }
    {
        let Some(id) = self.doubt else {
            return Settled::Clear;
        };
        let found = match log_tip(alloc, keeper) {
            Ok(found) => found,
            Err(KeeperFault::Failed) => return Settled::Fault,
            Err(KeeperFault::Memory) => return Settled::Memory,
        };
        let tip = tip_of(&self.rows);
        if same_tip(&found, &tip) {
            return self.drop_doubt(alloc, keeper, &tip);
        }
        if same_tip(&found, &Some(id)) {
            return self.take_in(alloc, keeper, &id);
        }
        Settled::Moved {
            found: id_or_zeros(&found),
            expected: id_or_zeros(&tip),
        }
    }
}
