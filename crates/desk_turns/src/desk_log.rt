//! The log of a desk, and what a push makes of it.

ghost use Rattle.std.specs.Prelude.{◌≡◌, ◌≤◌, length, map, unwrap_or, None, Some, IfOk, IfErr, OnOk};
ghost use Rattle.std.specs.Option.{is_some};
ghost use Rattle.octets.specs.Causes.{HasCause};
ghost use Rattle.git_object.specs.Ids.{zeros};
ghost use Rattle.git_object.specs.Repository.{Repository};
ghost use Rattle.keeper_api.specs.Undisturbed.{Undisturbed};
ghost use Rattle.rsl_chain.specs.Logs.{IsBrokenAs, log_failed};
ghost use Rattle.pushes.specs.Pushes.{IsSpelled};
ghost use Rattle.pushes.specs.Steps.{by_nobody, tip_of};
ghost use Rattle.desk_turns.specs.States.{Fits, IsLoaded, Refuses, Steps, answered, id_at, is_fault};

use git_object::ObjectId;
use keeper_api::{Keeper, KeeperFault, commit_change};
use octets::Memory;
use placed_items::Placed;
use pushes::{Push, Reply, Row, change_of, early, first_missing, id_or_zeros, tip_of};
use rsl_chain::{Log, LogFault};
use std::alloc::Global;
use std::marker::Model;

/// The log of a desk, each entry with its seat, and an entry of which it is not known whether the store has it.
#[derive(Drop)]
pub struct DeskLog {
    pub(crate) rows: Placed<Row>,
    pub(crate) doubt: Option<ObjectId>,
}

impl Model for DeskLog {
    ghost use Rattle.desk_turns.specs.States.{Desk};

    ghost Value = { Desk };

    ghost view = { λ d. record { log = d.rows; doubt = d.doubt } };
}

// The rows of a log that was loaded.
fn rows_of(alloc: Global, ids: &[ObjectId]) -> Result<Placed<Row>, Memory>
    ensures { IfOk result (λ rows. rows ≡ map by_nobody ids.now) }
{
    let mut rows: Placed<Row> = Placed::new(alloc);
    'ids: for id in ids {
        rows.push(Row { id: *id, seat: 0 })?;
    }
    Ok(rows)
}

impl DeskLog {
    /// The log of a store. Nobody put its entries there. It reads each entry's commit once.
    pub fn load<R: Keeper>(alloc: Global, keeper: &mut R) -> Result<DeskLog, LogFault>
        ensures loaded { IfOk result (IsLoaded (R.content keeper.new)) }
        ensures few { IfOk result (λ desk. length desk.log ≤ 1000000) }
        ensures broken { IfErr result (λ fault. (r : Repository) → R.content keeper.new ≡ Some r → IsBrokenAs r fault) }
        ensures same { Undisturbed R.Keeper keeper.old keeper.new }
        ensures cause { HasCause log_failed (R.faults keeper.old) (R.faults keeper.new) result }
    {
        let log = Log::load(alloc, keeper)?;
        let rows = rows_of(alloc, log.ids.as_slice())?;
        Ok(DeskLog { rows, doubt: None })
    }

    /// How many entries the log has, and the id of the last, or zeros. It takes no memory.
    pub fn tip(&self) -> (u64, ObjectId)
        ensures count { result.0 ≡ length self.now.log }
        ensures id { result.1 ≡ unwrap_or (tip_of self.now.log) zeros }
    {
        (self.rows.len() as u64, id_or_zeros(&tip_of(&self.rows)))
    }

    /// Whether an entry is in doubt. It takes no memory.
    pub fn in_doubt(&self) -> bool
        ensures { result ≡ is_some self.now.doubt }
    {
        self.doubt.is_some()
    }

    /// The entries in their order, lent.
    pub fn rows(&self) -> &[Row]
        ensures { result.now ≡ self.now.log }
    {
        self.rows.as_slice()
    }

    /// The id of the entry of a number, counted from 1, or None where there is none. It takes no memory.
    pub fn id_at(&self, number: u64) -> Option<ObjectId>
        ensures { result ≡ id_at self.now.log number }
    {
        if number == 0 {
            return None;
        }
        match self.rows.get((number - 1) as usize) {
            Some(row) => Some(row.id),
            None => None,
        }
    }

    /// Whether a push would be taken, or the reply that it would have. Nothing changes.
    pub fn check<R: Keeper>(&self, alloc: Global, keeper: &mut R, push: &Push) -> Result<(), Reply>
        requires spelled { IsSpelled push.now }
        ensures fits { OnOk result (Fits (R.content keeper.new) self.now.log push.now) }
        ensures refused { IfErr result (Refuses (R.content keeper.new) self.now.log push.now) }
        ensures same { Undisturbed R.Keeper keeper.old keeper.new }
        ensures cause { HasCause is_fault (R.faults keeper.old) (R.faults keeper.new) result }
    {
        if let Some(reply) = early(&self.rows, &push.entry) {
            return Err(reply);
        }
        match first_missing(alloc, keeper, push.objects.as_slice(), &push.entry.body) {
            Ok(Some(id)) => Err(Reply::Incomplete { id }),
            Ok(None) => Ok(()),
            Err(KeeperFault::Failed) => Err(Reply::Fault),
            Err(KeeperFault::Memory) => Err(Reply::Memory),
        }
    }

    // Adds the entry of a push that was checked, with one commit.
    fn take<R: Keeper>(&mut self, alloc: Global, keeper: &mut R, seat: u32, push: &Push) -> Reply
        requires clear { self.old.doubt ≡ None }
        requires fits { Fits (R.content keeper.old) self.old.log push.now }
        ensures steps { Steps R.Keeper keeper.old keeper.new self.old self.new push.now seat result }
        ensures cause { HasCause is_fault (R.faults keeper.old) (R.faults keeper.new) (answered result) }
    {
        let id = push.entry.id;
        let len = self.rows.len();
        let Ok(change) = change_of(alloc, &self.rows, push) else {
            return Reply::Memory;
        };
        if self.rows.push(Row { id, seat }).is_err() {
            return Reply::Memory;
        }
        match commit_change(alloc, &change, keeper) {
            Ok(()) => Reply::Done {
                number: len as u64 + 1,
                id,
            },
            Err(KeeperFault::Failed) => {
                self.rows.pop();
                self.doubt = Some(id);
                Reply::Fault
            }
            Err(KeeperFault::Memory) => {
                self.rows.pop();
                Reply::Memory
            }
        }
    }

    /// Answers a push, and takes it where it is the next entry and nothing that it needs is missing. Then there is one
    /// commit; where it fails the entry is in doubt.
    pub fn step<R: Keeper>(
        &mut self,
        alloc: Global,
        keeper: &mut R,
        seat: u32,
        push: &Push,
    ) -> Reply
        requires clear { self.old.doubt ≡ None }
        requires spelled { IsSpelled push.now }
        ensures steps { Steps R.Keeper keeper.old keeper.new self.old self.new push.now seat result }
        ensures cause { HasCause is_fault (R.faults keeper.old) (R.faults keeper.new) (answered result) }
    {
        match self.check(alloc, keeper, push) {
            Ok(()) => self.take(alloc, keeper, seat, push),
            Err(reply) => reply,
        }
    }
}
