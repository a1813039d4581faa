//! Whether a name is met by a set of signers, and what is told where it is not.

ghost use Rattle.std.specs.Prelude.{◌≡◌, ℕ, List, IfOk};
ghost use Rattle.rule_delegations.specs.Reached.{Name};
ghost use Rattle.entry_rules.specs.Meeting.{git_name, may_act, meets};

use git_object::KeyId;
use ref_patterns::Space;
use root_metadata::KeyIds;
use rule_delegations::Rules;

/// Whether a name is met by the signers.
pub fn meets(rules: &Rules, space: Space, text: &[u8], signers: &KeyIds) -> bool
    ensures { result ≡ meets rules.now (record { space = space; text = text.now }) signers.now }
{
    let _files = rules.files();
    rules.meets(space, text, signers)
}

/// Whether a key may act for a reference.
pub fn may_act(rules: &Rules, name: &[u8], key: &KeyId) -> bool
    ensures { result ≡ may_act rules.now (git_name name.now) key.now }
{
    let _files = rules.files();
    rules.lists(Space::Git, name, key)
}
