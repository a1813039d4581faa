//! What holds of all signatures of a type.

ghost use Rattle.std.specs.Prelude.{◌≡◌, ◌≢◌, ◌*◌, ◌/◌, ◌^◌, length, slice_index};
ghost use Rattle.lmots.specs.Chain.{StepByStep};
ghost use Rattle.lmots.specs.Digits.{Less, coded, coef, spelled};
ghost use Rattle.lmots.specs.OtsType.{FollowFromWidth, width};
ghost use Rattle.lmots.specs.OneTime.{IsOfType, candidate, public_key, signature};

use crate::ots_type::OtsType;

/// The number of chains and the shift of the checksum follow from the width of a digit.
pub fn numbers(kind: OtsType)
    ensures { FollowFromWidth kind }
{}

/// The digits of a string spell the number that its bytes spell, the highest first.
pub fn digits(kind: OtsType, string: &[u8])
    ensures { spelled (2 ^ width kind) (λ k. coef string.now k (width kind)) (8 / width kind * length string.now)
        ≡ spelled 256 (λ i. slice_index string.now i) (length string.now) }
{}

/// A chain is walked step by step: the last step is taken from what those before it reached.
pub fn step_by_step()
    ensures { StepByStep }
{}

/// Of two different digests, the second has a digit, its checksum's included, that is less than the
/// first's in the same place. So what a signature of the first shows leads to no signature of the
/// second: some chain would have to be walked backwards.
pub fn winternitz(kind: OtsType, first: &[u8], second: &[u8])
    requires first { length first.now ≡ 32 }
    requires second { length second.now ≡ 32 }
    ensures { first.now ≢ second.now → Less (coded kind first.now) (coded kind second.now) }
{}

/// What is signed with a key is of the key's type, and the candidate that it leads to is the key.
pub fn signed(kind: OtsType, i: &[u8], q: u32, seed: &[u8], message: &[u8])
    ensures shape { IsOfType kind (signature kind i.now q seed.now message.now) }
    ensures key { candidate kind i.now q message.now (signature kind i.now q seed.now message.now)
        ≡ public_key kind i.now q seed.now }
{}
