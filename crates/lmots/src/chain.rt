//! The walk of one hash chain.

ghost use Rattle.std.specs.Prelude.{◌≡◌, ◌≤◌, ◌-◌};
ghost use Rattle.lmots.specs.Chain.{steps};

use crate::hashes::{head, step_hash};

// The value of chain number `chain` after its steps `from` to `to` - 1. What is left of a chain when
// all were walked eight at once (`turns`) is nothing, so this takes no step then.
#[tactic(auto, using(crate::proofs::Steps::steps_next, crate::proofs::Steps::steps_none))]
pub(crate) fn walk(i: &[u8; 16], q: u32, chain: u16, from: u8, to: u8, start: [u8; 32]) -> [u8; 32]
    requires { from ≤ to }
    ensures { result ≡ steps i.now q chain from (to - from) start }
{
    let head = head(i, q, chain);
    let mut value = start;
    'steps: for step in from..to {
        value = step_hash(&head, step, &value);
    }
    value
}
