//! What holds of the definitions. No call needs this function: its contract is the law.

ghost use Rattle.desk_shops.specs.Desks.{PushIsStep};

use keeper_api::Keeper;

/// Over stores that always tell what they hold, what a desk answers of a push that was read is the desk's relation, at
/// the rows and the last repositories of what the seat has seen.
pub fn push_is_step<R: Keeper>()
    ensures { PushIsStep R.Keeper }
{}
