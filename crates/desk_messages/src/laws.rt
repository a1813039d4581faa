//! What holds of requests.

ghost use Rattle.desk_messages.specs.Laws.{OneAnswer, WhatFollows};

/// Bytes ask one thing at most.
#[tactic(auto, using(crate::proofs::Following::one_asked))]
pub fn one_answer()
    ensures { OneAnswer }
{}

/// Where a request is whole, and where some bytes came before which no head can stand, what follows changes nothing.
#[tactic(auto, using(crate::proofs::Following::follows))]
pub fn what_follows()
    ensures { WhatFollows }
{}
