//! Which rules match a name.

ghost use Rattle.std.specs.Prelude.{◌≡◌};
ghost use Rattle.rule_delegations.specs.Ends.{end_of, may_end};
ghost use Rattle.rule_delegations.specs.Reached.{pattern_matches, rule_matches};

use ref_patterns::laws::matches_where;
use ref_patterns::{Pattern, Space};
use rule_files::Rule;

#[tactic(auto, using(crate::proofs::EndBytes::end_is))]
fn end_of(text: &[u8]) -> Option<u8>
    ensures { result ≡ end_of text.now }
{
    text.last().copied()
}

fn may_end(glob: Option<u8>, text: Option<u8>) -> bool
    ensures { result ≡ may_end glob text }
{
    let Some(wanted) = glob else {
        return true;
    };
    if wanted == b'*' || wanted == b'?' {
        return true;
    }
    match text {
        Some(found) => wanted == found,
        None => false,
    }
}

// Whether a pattern matches a name. Most patterns are passed over by their last byte.
#[tactic(auto, using(crate::proofs::EndBytes::ends_first))]
fn pattern_matches(pattern: &Pattern, space: Space, text: &[u8]) -> bool
    ensures { result ≡ pattern_matches (record { space = space; text = text.now }) pattern.now }
{
    matches_where();
    may_end(end_of(pattern.glob()), end_of(text)) && pattern.matches(space, text)
}

/// Whether one of a rule's patterns matches a name.
pub(crate) fn rule_matches(rule: &Rule, space: Space, text: &[u8]) -> bool
    ensures { result ≡ rule_matches (record { space = space; text = text.now }) rule.now }
{
    let patterns = rule.patterns.as_slice();
    patterns
        .iter()
        .any(|pattern| pattern_matches(pattern, space, text))
}
