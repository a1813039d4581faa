//! A log of which the entries from a number on were judged.

ghost use Rattle.std.specs.Prelude.{◌≡◌, length};

use crate::later_engine::LaterEngine;
use account_lines::EntryRow;
use git_object::ObjectId;
use judged_logs::ByWhom;
use octets::Items;

/// A log of which the entries from a number on were judged, and those before it that are not the policy's taken
/// unjudged: as `JudgedLog`, but that of an entry that was not judged no more is kept than its id.
#[derive(Drop)]
pub struct LaterLog {
    pub(crate) engine: LaterEngine,
    pub(crate) epoch: Option<u64>,
    pub(crate) attested: Option<ObjectId>,
    pub(crate) rows: Items<EntryRow>,
    pub(crate) later: ByWhom,
}

impl LaterLog {
    /// How many entries it has, with those that were not judged.
    pub fn len(&self) -> usize
        ensures { result ≡ length self.now.rows }
    {
        self.rows.len()
    }

    /// The number from which on its entries were judged.
    pub fn first(&self) -> u64
        ensures { result ≡ self.now.engine.first }
    {
        self.engine.first()
    }
}
