//! What holds of the definitions. No call needs these functions: their contracts are the laws.

ghost use Rattle.desk_turns.specs.Laws.{StepIs};

use keeper_api::Keeper;

/// Over a store that tells what it holds, a step is the desk's relation.
pub fn step_is<R: Keeper>()
    ensures { StepIs R.Keeper }
{}
