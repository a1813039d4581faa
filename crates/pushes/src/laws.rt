//! Laws over the definitions of this crate.

ghost use Rattle.std.specs.Prelude.{◌≡◌, ◌^◌};
ghost use Rattle.pushes.specs.Laws.{OnePush, OneRefusal};
ghost use Rattle.pushes.specs.Pushes.{largest_push};

use crate::LARGEST_PUSH;

/// A text has at most one push, and no push's text begins another's.
pub fn one_push()
    ensures { OnePush }
{}

/// No push is refused, and what is refused is refused in one way alone, want of memory aside.
pub fn one_refusal()
    ensures { OneRefusal }
{}

/// The limit of a push that the code names is the one that the definitions name: 64 MiB.
pub fn limit()
    ensures code { LARGEST_PUSH ≡ 2 ^ 26 }
    ensures definition { largest_push ≡ 2 ^ 26 }
{}
