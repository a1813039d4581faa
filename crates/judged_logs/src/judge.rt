//! A judge that judges the entries from a number on.

ghost use Rattle.std.specs.Prelude.{◌≡◌, ◌≤◌, ◌+◌, Some, true, IfOk, OnOk};
ghost use Rattle.std.specs.Option.{option_copied};
ghost use Rattle.octets.specs.Causes.{HasCause};
ghost use Rattle.git_object.specs.Repository.{Repository};
ghost use Rattle.judging.specs.Judges.{KeepsStore, judge_failed};
ghost use Rattle.judging.specs.Rules.{same_tree};
ghost use Rattle.rsl_chain.specs.Entries.{target_of};
ghost use Rattle.judged_logs.specs.LaterRules.{rules_from};

use git_object::{KeyId, ObjectId, RefName};
use judging::{Finding, Judge, JudgeFault, KeyIds};
use rsl_chain::Entry;
use std::alloc::Global;

/// Answers as a judge does of the entries from a number on, and of the policy's. Of another entry before that number it
/// finds no fault and no signer, asks nobody, and reads nothing.
#[derive(Clone, Copy)]
pub struct LaterRules<J> {
    pub judge: J,
    pub first: u64,
}

impl<P, F, S, J: Judge<P, F, S>> Judge<P, F, S> for LaterRules<J> {
    ghost rules = { λ j. rules_from j.first (J.rules j.judge) };

    ghost trusts = { λ j r. J.trusts j.judge r };

    ghost content = { λ s. J.content s };

    ghost tells_left = { λ s. J.tells_left s };

    ghost left = { λ s. J.left s };

    ghost faults = { λ s. J.faults s };

    ghost reads = { λ s. J.reads s };

    ghost comes = { λ s t. J.comes s t };

    fn epoch(
        &self,
        alloc: Global,
        store: &mut S,
        policy: Option<&P>,
        entry: &Entry,
    ) -> Result<Result<P, F>, JudgeFault> {
        self.judge.epoch(alloc, store, policy, entry)
    }

    fn find(
        &self,
        alloc: Global,
        store: &mut S,
        policy: &P,
        entry: &Entry,
        from: &ObjectId,
        attested: Option<&ObjectId>,
    ) -> Result<Finding<F>, JudgeFault> {
        if entry.number < self.first {
            return Ok(Finding {
                fault: None,
                signers: KeyIds::new(alloc),
            });
        }
        self.judge.find(alloc, store, policy, entry, from, attested)
    }

    fn has_same_tree(
        &self,
        alloc: Global,
        store: &mut S,
        from: &ObjectId,
        to: &ObjectId,
    ) -> Result<bool, JudgeFault> {
        self.judge.has_same_tree(alloc, store, from, to)
    }

    fn no_policy(&self) -> F {
        self.judge.no_policy()
    }

    fn skipper(&self, policy: &P, annotation: &Entry) -> Option<KeyId> {
        self.judge.skipper(policy, annotation)
    }

    fn may_skip(&self, policy: &P, key: &KeyId, name: &RefName) -> bool {
        self.judge.may_skip(policy, key, name)
    }
}
