//! The policy of a target in a store.

ghost use Rattle.std.specs.Prelude.{◌≡◌, ◌≤◌, ◌+◌, length, IfOk, Some};
ghost use Rattle.octets.specs.Causes.{HasCause};
ghost use Rattle.git_object.specs.Repository.{Repository};
ghost use Rattle.keeper_api.specs.Faults.{keeper_failed};
ghost use Rattle.keeper_api.specs.Undisturbed.{Undisturbed};
ghost use Rattle.policy_reading.specs.Metadata.{rule_files};
ghost use Rattle.policy_reading.specs.Orders.{AreInOrder};
ghost use Rattle.policy_reading.specs.Ordered.{names_of};
ghost use Rattle.policy_reading.specs.Policies.{policy_in, policy_of, policy_reads};

use crate::judged_files::judge;
use crate::loaded_files::{bad_file, load_files, load_root};
use crate::{find_called, load_metadata, own_state, rule_files};
use git_object::{ObjectId, TreeEntry};
use keeper_api::{Keeper, KeeperFault};
use known_signers::KnownSigners;
use policy_epochs::{Policy, PolicyFault};
use std::alloc::Global;
use tree_paths::State;

// The policy of the entries of a directory `metadata`.
#[tactic(auto, unfolding(crate::specs::Policies::policy_in))]
fn check_entries<R: Keeper>(
    alloc: Global,
    keeper: &mut R,
    known: &KnownSigners,
    entries: &[TreeEntry],
) -> Result<Result<Policy, PolicyFault>, KeeperFault>
    ensures policy { IfOk result (λ found. (r : Repository) → R.content keeper.new ≡ Some r
        → found ≡ policy_in r entries.now) }
    ensures order { IfOk result (λ found. IfOk found (λ policy. AreInOrder (names_of policy.files))) }
    ensures same { Undisturbed R.Keeper keeper.old keeper.new }
    ensures cause { HasCause keeper_failed (R.faults keeper.old) (R.faults keeper.new) result }
    ensures reads { R.reads keeper.new ≤ R.reads keeper.old + (1 + length (rule_files entries.now)) }
{
    let Some(entry) = find_called(entries, b"root") else {
        return Ok(Err(PolicyFault::NoRoot));
    };
    let files = rule_files(alloc, entries)?;
    let Some(signed) = load_root(alloc, keeper, known, &entry.id)? else {
        return Ok(Err(bad_file(alloc, b"root")?));
    };
    match load_files(alloc, keeper, known, files.as_slice())? {
        Err(fault) => Ok(Err(fault)),
        Ok(files) => Ok(judge(alloc, known, signed, files)?),
    }
}

/// The policy of a target, where it is valid, and else the first of its faults, of which the numbers are 1 to 6: the
/// target's state is absent or broken; there is no `metadata/root.json`; a file is missing, longer than 1 MiB or
/// refused; too few signed the root; the rule files are no rules of a policy; too few signed a rule file. It makes at
/// most 9 reads to peel the target, one for each tree of its walk, and 3 beside one for each rule file. A text that was
/// read before is not read again, and no signature is checked of a file whose signers are known.
#[tactic(auto, unfolding(crate::specs::Policies::policy_of, crate::specs::Policies::policy_reads))]
pub fn check_policy<R: Keeper>(
    alloc: Global,
    keeper: &mut R,
    known: &KnownSigners,
    target: &ObjectId,
) -> Result<Result<Policy, PolicyFault>, KeeperFault>
    ensures policy { IfOk result (λ found. (r : Repository) → R.content keeper.new ≡ Some r
        → found ≡ policy_of r target.now) }
    ensures order { IfOk result (λ found. IfOk found (λ policy. AreInOrder (names_of policy.files))) }
    ensures same { Undisturbed R.Keeper keeper.old keeper.new }
    ensures cause { HasCause keeper_failed (R.faults keeper.old) (R.faults keeper.new) result }
    ensures reads { (r : Repository) → R.content keeper.new ≡ Some r → R.reads keeper.new ≤ R.reads keeper.old
        + policy_reads r target.now }
{
    match own_state(alloc, keeper, target)? {
        State::Absent | State::Broken { id: _ } => Ok(Err(PolicyFault::Unreadable)),
        State::Whole {
            tree,
            paths: _,
            dirs: _,
        } => {
            let entries = load_metadata(alloc, keeper, &tree)?;
            check_entries(alloc, keeper, known, entries.as_slice())
        }
    }
}
