//! A log that was judged.

ghost use Rattle.std.specs.Prelude.{◌≡◌, List, length};
ghost use Rattle.std.specs.Option.{option_copied};
ghost use Rattle.rsl_chain.specs.Entries.{Taken};
ghost use Rattle.judging.specs.Logs.{policy_after};
ghost use Rattle.entry_rules.specs.RealRules.{real_rules};
ghost use Rattle.verify_ref.specs.Following.{Follows};

use account_lines::EntryRow;
use git_object::{ObjectId, RefName};
use judged_logs::ByWhom;
use octets::Items;
use policy_changes::LogNames;
use policy_epochs::Policy;
use verify_ref::Engine;

/// A log that was judged: the engine that took its entries, the number of the last entry that brought a policy into
/// force, the target of the last entry of the attestations' reference, the names of which it speaks, what is known of
/// each entry, in their order, and by which later ones they are skipped and rescued.
#[derive(Drop)]
pub struct JudgedLog {
    pub(crate) engine: Engine,
    pub(crate) epoch: Option<u64>,
    pub(crate) attested: Option<ObjectId>,
    pub(crate) names: LogNames,
    pub(crate) rows: Items<EntryRow>,
    pub(crate) later: ByWhom,
}

impl JudgedLog {
    /// How many entries it has.
    pub fn len(&self) -> usize
        ensures { result ≡ length self.now.rows }
    {
        self.rows.len()
    }

    /// The names of the references of which it speaks, each once, in the order in which it does so first, lent.
    pub fn names(&self) -> &[RefName]
        ensures { result.now ≡ self.now.names }
    {
        self.names.as_slice()
    }

    /// The number of the last entry that brought a policy into force.
    pub fn epoch(&self) -> Option<u64>
        ensures { result ≡ self.now.epoch }
    {
        self.epoch
    }

    /// The policy in force behind it.
    pub fn policy(&self) -> Option<&Policy>
        ensures { (log : List Taken) → Follows log self.now.engine
            → option_copied result ≡ policy_after (real_rules self.now.engine.rules.anchor) log }
    {
        self.engine.policy()
    }
}
