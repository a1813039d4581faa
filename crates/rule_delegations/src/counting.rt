//! How many rules and keys there are.

ghost use Rattle.std.specs.Prelude.{◌≡◌};
ghost use Rattle.rule_delegations.specs.Assembling.{count_of_keys, count_of_rules, excess};
ghost use Rattle.rule_delegations.specs.Forests.{AreFew};

use rule_files::RuleFile;

/// The most rules, and the most listed keys, of a policy.
const MOST: usize = 1024;

fn count_rules(files: &[RuleFile]) -> usize
    requires { AreFew files.now }
    ensures { result ≡ count_of_rules files.now }
{
    let mut count = 0;
    for file in files {
        count += file.rules.len();
    }
    count
}

fn count_keys(files: &[RuleFile]) -> usize
    requires { AreFew files.now }
    ensures { result ≡ count_of_keys files.now }
{
    let mut count = 0;
    for file in files {
        count += file.keys.len();
    }
    count
}

/// The number that is past the most: of the rules or, where these are few enough, of the listed keys.
pub(crate) fn excess(files: &[RuleFile]) -> Option<usize>
    requires { AreFew files.now }
    ensures { result ≡ excess files.now }
{
    let rules = count_rules(files);
    if rules > MOST {
        return Some(rules);
    }
    let keys = count_keys(files);
    if keys > MOST {
        return Some(keys);
    }
    None
}
