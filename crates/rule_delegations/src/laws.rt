//! What follows of assembling and of thresholds.

ghost use Rattle.std.specs.Prelude.{◌↔◌, List};
ghost use Rattle.rule_files.specs.declared.rules.RuleFile.{RuleFile};
ghost use Rattle.rule_delegations.specs.Assembling.{HasNoFault, IsFaultless, OneFault};
ghost use Rattle.rule_delegations.specs.SchemaOne.{SchemaOneSame};

/// Files have one fault at most, so the first that holds is the only one that a refusal can name.
pub fn one_fault()
    ensures { OneFault }
{}

/// In files of schema 1, where each listed key id is a person of its own, a name is met exactly where no rule is
/// reached, or some reached rule has at least its threshold of listed key ids among the signers.
pub fn schema_one_same()
    ensures { SchemaOneSame }
{}

/// Files have no fault exactly where no two rules and no two files have one name, each file below the top is named
/// after a rule on a chain, no chain is longer than eight, and there are at most 1,024 rules and as many listed keys.
pub fn faultless_where()
    ensures { (files : List RuleFile) → HasNoFault files ↔ IsFaultless files }
{}
