//! The keeper over a database.

ghost use Rattle.std.specs.Prelude.{◌≡◌, ◌↔◌, ◌⊎◌, true, false, pos, Some, Err, IfOk, IsErrOf, IsTrue};
ghost use Rattle.std.specs.Option.{option_map, option_copied};
ghost use Rattle.std.specs.FinMap.{get};
ghost use Rattle.octets.specs.BytesMap.{entry_after};
ghost use Rattle.octets.specs.Causes.{HasCause, count_after, one_more};
ghost use Rattle.octets.specs.Content.{Told};
ghost use Rattle.git_object.specs.Repository.{Repository};
ghost use Rattle.keeper_api.specs.Changes.{ref_value};
ghost use Rattle.keeper_api.specs.Faults.{keeper_failed};
ghost use Rattle.keeper_api.specs.Keepers.{Commits, Leaves};
ghost use Rattle.sqlite.specs.Held.{state};
ghost use Rattle.sqlite.specs.State.{HasCleanDisk};
ghost use Rattle.keeper_sqlite.specs.Adopting.{HasNumber, IsReliable, TellsNumber};
ghost use Rattle.keeper_sqlite.specs.Answering.{IsAnswered};
ghost use Rattle.keeper_sqlite.specs.Rows.{repository_in};
ghost use Rattle.keeper_sqlite.specs.Tables.{store_schema};

use crate::adopting::checked;
use crate::commits::{Made, try_make};
use crate::looks::{look_next_object, look_next_ref, look_object, look_ref};
use crate::schemas::is_store_schema;
use crate::sql_faults::SqlFault;
use git_object::{Object, ObjectId, RefName};
use keeper_api::{Change, KeeperFault, RefValue};
use sqlite::{Alter, Connection};
use std::alloc::Global;
use std::marker::Model;

/// A keeper over a database with the tables `objects`, `refs` and `facts`.
#[derive(Drop)]
pub struct SqlKeeper<S: Alter> {
    conn: Connection<S>,
    // Whether the tables were found to be those of the schema.
    known: bool,
    // Whether a commit failed after which the database answered no more, so that a stop may leave the old or the new
    // tables. It does not go away: each later call is refused, and leaves all as it is.
    in_doubt: bool,
    faults: u64,
    reads: u64,
}

impl<S: Alter> Model for SqlKeeper<S> {
    ghost use Rattle.keeper_sqlite.specs.Keepers.{Kept, kept_code, IsKeeper};

    ghost Value = { Kept S };

    ghost coded = { kept_code S.code };

    ghost view = { λ k. record {
      conn = k.conn;
      known = k.known;
      in_doubt = k.in_doubt;
      faults = k.faults;
      reads = k.reads;
    } };

    ghost invariant = { λ k. IsKeeper S.Store k.conn k.known };
}

impl<S: Alter> SqlKeeper<S> {
    ghost use Rattle.keeper_sqlite.specs.Keepers.{LooksAt, TellsAfterAt, content_of, tells_left_of, left_of};

    /// Whether the tables are those of the schema, so that it tells what they hold while the database is open.
    pub fn tells(&self) -> bool
        ensures { result ≡ self.now.known }
    {
        self.known
    }

    pub(crate) fn into_connection(self) -> Connection<S> {
        self.conn
    }

    pub(crate) fn object_at(
        &mut self,
        alloc: Global,
        id: &ObjectId,
    ) -> Result<Option<Object>, KeeperFault>
        ensures frame { self.new ≡ record self.old { conn = self.new.conn } }
        ensures same { LooksAt S.Store result self.old self.new }
        ensures doubted { IsTrue self.old.in_doubt → IsErrOf result KeeperFault.Failed × (self.new ≡ self.old) }
        ensures answer { IfOk result (λ found. (r : Repository) → content_of S.Store self.new ≡ Some r → found ≡ get r.objects id.now) }
    {
        if self.in_doubt {
            return Err(KeeperFault::Failed);
        }
        let _ = self.conn.is_autocommit();
        look_object(&mut self.conn, alloc, id)
    }

    pub(crate) fn ref_at(&mut self, name: &RefName) -> Result<Option<ObjectId>, KeeperFault>
        ensures frame { self.new ≡ record self.old { conn = self.new.conn } }
        ensures same { LooksAt S.Store result self.old self.new }
        ensures doubted { IsTrue self.old.in_doubt → IsErrOf result KeeperFault.Failed × (self.new ≡ self.old) }
        ensures answer { IfOk result (λ found. (r : Repository) → content_of S.Store self.new ≡ Some r → found ≡ get r.refs name.now) }
    {
        if self.in_doubt {
            return Err(KeeperFault::Failed);
        }
        let _ = self.conn.is_autocommit();
        look_ref(&mut self.conn, name)
    }

    pub(crate) fn object_after(
        &mut self,
        after: Option<&ObjectId>,
    ) -> Result<Option<ObjectId>, KeeperFault>
        ensures frame { self.new ≡ record self.old { conn = self.new.conn } }
        ensures same { LooksAt S.Store result self.old self.new }
        ensures doubted { IsTrue self.old.in_doubt → IsErrOf result KeeperFault.Failed × (self.new ≡ self.old) }
        ensures answer { IfOk result (λ found. (r : Repository) → content_of S.Store self.new ≡ Some r
            → found ≡ option_map (λ e. e.0) (entry_after r.objects (option_copied after.entry))) }
    {
        if self.in_doubt {
            return Err(KeeperFault::Failed);
        }
        let _ = self.conn.is_autocommit();
        look_next_object(&mut self.conn, after)
    }

    pub(crate) fn ref_after(
        &mut self,
        alloc: Global,
        after: Option<&RefName>,
    ) -> Result<Option<RefValue>, KeeperFault>
        ensures frame { self.new ≡ record self.old { conn = self.new.conn } }
        ensures same { LooksAt S.Store result self.old self.new }
        ensures doubted { IsTrue self.old.in_doubt → IsErrOf result KeeperFault.Failed × (self.new ≡ self.old) }
        ensures answer { IfOk result (λ found. (r : Repository) → content_of S.Store self.new ≡ Some r
            → found ≡ option_map ref_value (entry_after r.refs (option_copied after.entry))) }
    {
        if self.in_doubt {
            return Err(KeeperFault::Failed);
        }
        let _ = self.conn.is_autocommit();
        look_next_ref(&mut self.conn, alloc, after)
    }

    pub(crate) fn count_read(&mut self)
        ensures { self.new ≡ record self.old { reads = one_more self.old.reads } }
    {
        self.reads = self.reads.saturating_add(1);
    }

    pub(crate) fn fault_count(&self) -> u64
        ensures { result ≡ self.now.faults }
    {
        self.faults
    }

    pub(crate) fn make(&mut self, change: &Change) -> Result<(), KeeperFault>
        ensures counts { (self.new.faults ≡ self.old.faults) × (self.new.reads ≡ self.old.reads) }
        ensures content { Told (Commits change.now result) (content_of S.Store self.old) (content_of S.Store self.new) }
        ensures on { TellsAfterAt S.Store result self.old self.new }
        ensures doubted { IsTrue self.old.in_doubt → IsErrOf result KeeperFault.Failed × (self.new ≡ self.old) }
        ensures answered { IsAnswered result → self.new.in_doubt ≡ false }
        ensures doubt { IsTrue self.new.in_doubt → HasCleanDisk (state S.Store self.new.conn)
            → IsTrue self.old.in_doubt ⊎ IsTrue (state S.Store self.old.conn).is_open }
        ensures left { Leaves change.now result (content_of S.Store self.old) (tells_left_of S.Store self.old)
            (tells_left_of S.Store self.new) (left_of S.Store self.old) (left_of S.Store self.new) }
    {
        if self.in_doubt {
            return Err(KeeperFault::Failed);
        }
        let _ = self.conn.is_autocommit();
        let made = try_make(&mut self.conn, change);
        let _ = self.conn.is_autocommit();
        match made {
            Made::Done => Ok(()),
            Made::Refused(fault) => Err(fault),
            Made::InDoubt => {
                self.in_doubt = true;
                Err(KeeperFault::Failed)
            }
        }
    }

    // Notes a refusal that is a fault.
    pub(crate) fn counted<T: Drop>(
        &mut self,
        answer: Result<T, KeeperFault>,
    ) -> Result<T, KeeperFault>
        ensures answer { result ≡ answer }
        ensures counted { self.new ≡ record self.old { faults = count_after keeper_failed self.old.faults answer } }
        ensures cause { HasCause keeper_failed self.old.faults self.new.faults result }
    {
        match answer {
            Err(KeeperFault::Failed) => {
                self.faults = self.faults.saturating_add(1);
                Err(KeeperFault::Failed)
            }
            other => other,
        }
    }
}

impl<S: Alter + Drop> SqlKeeper<S> {
    ghost use Rattle.keeper_sqlite.specs.Keepers.{content_of, tells_left_of, left_of};

    /// The keeper over a database with the tables of the schema with number 1, which an empty one gets in one
    /// transaction. First `Failed` where a transaction is open; then `BadSchema` where the row `schema` has another
    /// number, 0 where there is no such row; `Failed` also where there are other tables and no such row can be looked
    /// for, or where a statement was refused. It tells nothing where the tables are others. The rows are gone over
    /// twice.
    pub fn adopt(alloc: Global, connection: Connection<S>) -> Result<SqlKeeper<S>, SqlFault>
        ensures counts { IfOk result (λ keeper. (keeper.faults ≡ 0) × (keeper.reads ≡ 0)) }
        ensures left { IfOk result (λ keeper. tells_left_of S.Store keeper ≡ true → (r : Repository)
            → left_of S.Store keeper r → content_of S.Store keeper ≡ Some r) }
        ensures held { IfOk result (λ keeper. connection.schema ≡ store_schema → (r : Repository)
            → content_of S.Store keeper ≡ Some r → r ≡ repository_in (state S.Store connection).committed.trees) }
        ensures known { IfOk result (λ keeper. IsTrue keeper.known ↔ (keeper.conn.schema ≡ store_schema)) }
        ensures tells { IfOk result (λ keeper. HasCleanDisk (state S.Store keeper.conn)
            → connection.schema ≡ store_schema → IsTrue keeper.known) }
        ensures number { IfOk result (λ keeper. HasCleanDisk (state S.Store keeper.conn)
            → connection.schema ≡ store_schema → TellsNumber ((state S.Store connection).now.trees 4) (pos 1)) }
        ensures refused { IsReliable S.Store → connection.schema ≡ store_schema
            → HasNumber result ((state S.Store connection).now.trees 4) }
        ensures other { IsErrOf result (SqlFault.BadSchema (pos 1)) → ⊥ }
        ensures busy { connection.in_transaction ≡ true → result ≡ Err SqlFault.Failed }
    {
        let conn = checked(alloc, connection)?;
        let known = is_store_schema(conn.schema());
        Ok(SqlKeeper {
            conn,
            known,
            in_doubt: false,
            faults: 0,
            reads: 0,
        })
    }
}
