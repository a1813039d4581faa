//! What holds of the definitions. No call needs these functions: their contracts are the laws.

ghost use Rattle.desk_http.specs.Steps.{EachReplyIsStep};
ghost use Rattle.desk_http.specs.Gates.{EachGateReplyIsStep};

use keeper_api::Keeper;

/// Over stores that always tell what they hold, each reply to a push, but for a fault and want of memory, says why its
/// bytes are no push, or is the desk's relation, at the ids and the last repositories of what the seat has seen.
pub fn each_reply_is_step<R: Keeper>()
    ensures { EachReplyIsStep R.Keeper }
{
    desk_shops::laws::push_is_step::<R>();
}

/// Over stores that always tell what they hold, each reply of a desk with a gate to a push, but for a fault and want of
/// memory, says why its bytes are no push, or is the gate's relation, at ledgers of what the seat has seen.
pub fn each_gate_reply_is_step<R: Keeper>()
    ensures { EachGateReplyIsStep R.Keeper }
{
    desk_shops::gate_laws::push_is_gate_step::<R>();
}
