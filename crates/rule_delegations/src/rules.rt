//! The rules of a policy.

ghost use Rattle.std.specs.Prelude.{◌≡◌, ◌⊎◌, ◌↔◌, IfErr, IfOk, IsOk, OnOk, IfSome, IsSome, IsTrue, None, Some, All};
ghost use Rattle.rule_delegations.specs.declared.assembling.AssembleFault.{AssembleFault};
ghost use Rattle.rule_delegations.specs.declared.assembling.AssembleFault.TheVariants as fault;
ghost use Rattle.rule_delegations.specs.Assembling.{HasFault};
ghost use Rattle.rule_delegations.specs.Chains.{rule_at};
ghost use Rattle.rule_delegations.specs.Forests.{IsPolicy};
ghost use Rattle.rule_delegations.specs.Reached.{AreReached, IsFirstReached, IsShort, MayAct, Meets};

use crate::assembling::forest_of;
use crate::forest::Forest;
use crate::matching::rule_matches;
use crate::meeting::{Asked, Told, tell_file};
use crate::searching::search_file;
use crate::{AssembleFault, RuleRef, Short};
use octets::Memory;
use ref_patterns::Space;
use root_metadata::{KeyId, KeyIds, count_in};
use rule_files::{Rule, RuleFile, RuleFiles};
use std::alloc::Global;
use std::marker::Model;

/// The longest chain of rules.
const DEEPEST: u32 = 8;

/// The rules of a policy, seen as the list of its files, of which the first is the top file.
#[derive(Drop)]
pub struct Rules {
    forest: Forest,
}

impl Model for Rules {
    ghost use Rattle.std.specs.Prelude.{List};
    ghost use Rattle.rule_files.specs.declared.rules.RuleFile.{RuleFile};
    ghost use Rattle.rule_delegations.specs.Forests.{IsPolicy};

    ghost Value = { List RuleFile };

    ghost view = { λ s. s.forest };

    ghost invariant = { λ s. IsPolicy s.forest };
}

impl Rules {
    /// The rules of files, of which the first is the top file; no file gives no rules. A refusal tells the first fault
    /// that holds.
    pub fn assemble(alloc: Global, files: RuleFiles) -> Result<Rules, AssembleFault>
        ensures ok { IfOk result (λ rules. rules ≡ files) }
        ensures sound { OnOk result ((fault : AssembleFault) → HasFault files fault → ⊥) }
        ensures refused { IfErr result (λ e. (e ≡ fault.Memory) ⊎ HasFault files e) }
    {
        match forest_of(alloc, files) {
            Ok(forest) => Ok(Rules { forest }),
            Err(fault) => Err(fault),
        }
    }

    /// The files, of which the first is the top file, lent. No two have one name, and no chain is longer than eight.
    pub fn files(&self) -> &[RuleFile]
        ensures value { result.now ≡ self.now }
        ensures policy { IsPolicy self.now }
    {
        self.forest.files()
    }

    /// The rule at a place that `search` or `first_reached` gave.
    pub fn rule(&self, place: RuleRef) -> &Rule
        requires { IsSome (rule_at self.now place) }
        ensures { rule_at self.now place ≡ Some result.now }
    {
        self.forest.rule(place).unwrap()
    }

    /// The places of the last rules of the chains that a name reaches, in pre-order. It takes no memory for a rule that
    /// does not match.
    pub fn search(&self, alloc: Global, space: Space, text: &[u8]) -> Result<Vec<RuleRef>, Memory>
        ensures reached { IfOk result (λ places. AreReached self.now (record { space = space; text = text.now })
            places.items) }
        ensures places { IfOk result (λ places. All (λ place. IsSome (rule_at self.now place)) places.items) }
        ensures free { IsFirstReached self.now (record { space = space; text = text.now }) None → IsOk result }
    {
        let mut found = Vec::new(alloc);
        search_file(&self.forest, 0, DEEPEST, space, text, &mut found)?;
        Ok(found)
    }

    /// The place of the last rule of the first chain that a name reaches; None where it reaches none. It takes no
    /// memory.
    pub fn first_reached(&self, space: Space, text: &[u8]) -> Option<RuleRef>
        ensures first { IsFirstReached self.now (record { space = space; text = text.now }) result }
        ensures place { IfSome result (λ place. IsSome (rule_at self.now place)) }
    {
        for (at, rule) in self.forest.rules(0).iter().enumerate() {
            if rule_matches(rule, space, text) {
                return Some(RuleRef {
                    file: 0,
                    rule: at as u32,
                });
            }
        }
        None
    }

    /// Whether a name is met by a set of signers: it reaches no rule, or some reached rule has at least its threshold
    /// of persons with a key in the set. It takes no memory.
    pub fn meets(&self, space: Space, text: &[u8], signers: &KeyIds) -> bool
        ensures { IsTrue result ↔ Meets self.now (record { space = space; text = text.now }) signers.now }
    {
        match tell_file(
            &self.forest,
            0,
            DEEPEST,
            space,
            text,
            &Asked::IsMet(signers),
        ) {
            Told::Met => true,
            _ => self.first_reached(space, text).is_none(),
        }
    }

    /// Whether a key may act for a name: the name reaches no rule, or some reached rule has a person with the key. It
    /// takes no memory.
    pub fn lists(&self, space: Space, text: &[u8], key: &KeyId) -> bool
        ensures { IsTrue result ↔ MayAct self.now (record { space = space; text = text.now }) key.now }
    {
        match tell_file(&self.forest, 0, DEEPEST, space, text, &Asked::Lists(key)) {
            Told::Met => true,
            _ => self.first_reached(space, text).is_none(),
        }
    }

    /// Of the rule that a name reaches first, how many of its persons have a key among the signers, and how many must;
    /// None where no rule is reached. It takes no memory.
    pub fn short(&self, space: Space, text: &[u8], signers: &KeyIds) -> Option<Short>
        ensures { IsShort self.now (record { space = space; text = text.now }) signers.now result }
    {
        let Some(place) = self.first_reached(space, text) else {
            return None;
        };
        let rule = self.rule(place);
        Some(Short {
            place,
            got: count_in(&rule.persons, signers),
            need: rule.threshold,
        })
    }
}
