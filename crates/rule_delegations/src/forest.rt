//! Files and the links between them.

ghost use Rattle.std.specs.Prelude.{◌≡◌, ◌<◌, ◌^◌, length};
ghost use Rattle.std.specs.Option.{option_copied};
ghost use Rattle.rule_delegations.specs.Chains.{rule_at};
ghost use Rattle.rule_delegations.specs.Forests.{AreFew, IsForest, link_at, rules_of};

use crate::RuleRef;
use octets::Items;
use rule_files::{Rule, RuleFile, RuleFiles};
use std::marker::Model;

/// The places of the files below the rules of each file.
pub(crate) type Links = Items<Items<Option<u32>>>;

/// Files, seen as their list, and beside them the place of the file below each rule, so that none is looked for.
#[derive(Drop)]
pub(crate) struct Forest {
    files: RuleFiles,
    below: Links,
}

impl Model for Forest {
    ghost use Rattle.std.specs.Prelude.{List};
    ghost use Rattle.rule_files.specs.declared.rules.RuleFile.{RuleFile};
    ghost use Rattle.rule_delegations.specs.Forests.{IsForest};

    ghost Value = { List RuleFile };

    ghost view = { λ s. s.files };

    ghost invariant = { λ s. IsForest s.files s.below };
}

impl Forest {
    /// The files with these links.
    pub fn new(files: RuleFiles, below: Links) -> Forest
        requires { IsForest files below }
        ensures { result ≡ files }
    {
        Forest { files, below }
    }

    /// The files, lent.
    pub fn files(&self) -> &[RuleFile]
        ensures value { result.now ≡ self.now }
        ensures few { AreFew self.now }
    {
        self.files.as_slice()
    }

    /// The rules of the file at a place; none where no file is.
    pub fn rules(&self, file: u32) -> &[Rule]
        ensures value { result.now ≡ rules_of self.now file }
        ensures few { length result.now < 2 ^ 32 }
    {
        match self.files.get(file as usize) {
            Some(found) => found.rules.as_slice(),
            None => &[],
        }
    }

    /// The rule at a place.
    pub fn rule(&self, place: RuleRef) -> Option<&Rule>
        ensures { option_copied result ≡ rule_at self.now place }
    {
        let Some(file) = self.files.get(place.file as usize) else {
            return None;
        };
        file.rules.get(place.rule as usize)
    }

    /// The place of the file below the rule at a place.
    pub fn below(&self, place: RuleRef) -> Option<u32>
        ensures { result ≡ link_at self.now place }
    {
        let Some(links) = self.below.get(place.file as usize) else {
            return None;
        };
        let Some(link) = links.get(place.rule as usize) else {
            return None;
        };
        *link
    }
}
