//! What holds of the definitions. No call needs these functions: their contracts are the laws.

ghost use Rattle.desk_shops.specs.GateStanding.{ShopHolds};
ghost use Rattle.desk_shops.specs.Steps.{PushIsGateStep};

use keeper_api::Keeper;

/// A shop that stands for a history which was loaded lawful, and of which no entry came with an object that was kept in
/// the place of another, holds no violation, where its store tells what it holds and nothing is in doubt.
pub fn shop_holds<R: Keeper>()
    ensures { ShopHolds R.Keeper }
{}

/// Over stores that always tell what they hold, what a desk answers of a push that was read is the gate's relation, at
/// ledgers of what the seat has seen.
pub fn push_is_gate_step<R: Keeper>()
    ensures { PushIsGateStep R.Keeper }
{}
