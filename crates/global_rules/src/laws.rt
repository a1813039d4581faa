//! What holds of the definitions. No call needs these functions: their contracts are the laws.

ghost use Rattle.std.specs.Prelude.{◌≡◌, ℕ, List, None, Option};
ghost use Rattle.std.specs.List.{AllByRecursion};
ghost use Rattle.git_object.specs.Repository.{Repository};
ghost use Rattle.rule_files.specs.declared.global_rules.GlobalRule.{GlobalRule};
ghost use Rattle.rule_files.specs.declared.rules.RuleFile.{RuleFile};
ghost use Rattle.rule_delegations.specs.Forests.{IsPolicy};
ghost use Rattle.rule_delegations.specs.Reached.{Name};
ghost use Rattle.global_rules.specs.Greatest.{IsGreatest, greatest};
ghost use Rattle.global_rules.specs.Readings.{IsKept};
ghost use Rattle.global_rules.specs.Whys.{IsFileWhy, IsFirstWhy};
ghost use Rattle.global_rules.specs.declared.found_files.FoundFile.{FoundFile};
ghost use Rattle.global_rules.specs.declared.whys.Change.{Change};
ghost use Rattle.global_rules.specs.declared.whys.GlobalWhy.{GlobalWhy};

/// Of all rules that a name reaches, and not of the first alone: none has more persons who signed than are counted, and
/// one has so many.
pub fn greatest_where()
    ensures { (files : List RuleFile) (name : Name) (signers : List (List ℕ)) → IsPolicy files
        → IsGreatest files name signers (greatest files name signers) }
{}

/// A change that breaks none of the rules keeps each: enough signed for the reference and for each changed path of
/// which a rule speaks, and where a rule is against going back, the target descends from where the reference stood.
pub fn kept_where()
    ensures { (r : Repository) (files : List RuleFile) (change : Change) (paths : List (List ℕ)) (rules : List GlobalRule)
        → IsFirstWhy r files change paths rules None → AllByRecursion (IsKept r files change paths) rules }
{}

/// There is one why at most.
pub fn one_why()
    ensures { (r : Repository) (files : List RuleFile) (change : Change) (file : FoundFile) (a b : Option GlobalWhy)
        → IsFileWhy r files change file a → IsFileWhy r files change file b → a ≡ b }
{}
