//! Names that stand twice.

ghost use Rattle.std.specs.Prelude.{◌≡◌, ◌∷◌, [], List, ℕ, map, IfOk, OnOk, IsTrue};
ghost use Rattle.std.specs.BTreeSet.{contains};
ghost use Rattle.octets.specs.BytesMap.{by_bytes};
ghost use Rattle.rule_delegations.specs.Assembling.{IsFirstName, IsTwice, file_names, rule_names};

use octets::{Memory, Octets};
use rule_files::{Rule, RuleFile};
use std::alloc::Global;
use std::collections::BTreeSet;

/// The names that were seen, and those that stand twice.
#[derive(Drop)]
struct Seen {
    once: BTreeSet<Octets>,
    twice: BTreeSet<Octets>,
}

impl Seen {
    ghost use Rattle.rule_delegations.specs.Seen.{Notes};

    // Notes a name.
    fn note(&mut self, name: &Octets) -> Result<(), Memory>
        ensures { OnOk result (Notes self.old self.new (name.now ∷ [])) }
    {
        let is_new = self.once.insert(name.copy()?)?;
        if !is_new {
            self.twice.insert(name.copy()?)?;
        }
        Ok(())
    }

    // Notes the names of rules.
    fn note_rules(&mut self, rules: &[Rule]) -> Result<(), Memory>
        ensures { OnOk result (Notes self.old self.new (map (λ rule. rule.name) rules.now)) }
    {
        for rule in rules {
            self.note(&rule.name)?;
        }
        Ok(())
    }

    // Notes the names of the rules of files.
    fn note_all_rules(&mut self, files: &[RuleFile]) -> Result<(), Memory>
        ensures { OnOk result (Notes self.old self.new (rule_names files.now)) }
    {
        for file in files {
            self.note_rules(file.rules.as_slice())?;
        }
        Ok(())
    }

    // Notes the names of files.
    fn note_files(&mut self, files: &[RuleFile]) -> Result<(), Memory>
        ensures { OnOk result (Notes self.old self.new (file_names files.now)) }
    {
        for file in files {
            self.note(&file.name)?;
        }
        Ok(())
    }
}

/// The least name that two rules, or two files, have.
pub(crate) fn name_twice(alloc: Global, files: &[RuleFile]) -> Result<Option<Octets>, Memory>
    ensures { IfOk result (IsFirstName (IsTwice files.now)) }
{
    let mut rules = Seen {
        once: BTreeSet::new(alloc),
        twice: BTreeSet::new(alloc),
    };
    rules.note_all_rules(files)?;
    let mut both = Seen {
        once: BTreeSet::new(alloc),
        twice: rules.twice,
    };
    both.note_files(files)?;
    Ok(both.twice.pop_first())
}
