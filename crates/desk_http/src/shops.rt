//! What a shop's answers are over HTTP.

ghost use Rattle.std.specs.Prelude.{◌≡◌};
ghost use Rattle.desk_http.specs.declared.serving_desks.Pushed.{Pushed};

use crate::Pushed;
use desk_shops::{Judged, Shop};
use desk_turns::DeskShop;
use keeper_api::Keeper;
use pushes::Reply;

/// A shop whose answers are told over HTTP.
pub trait HttpShop: DeskShop<Judged = Judged> {
    /// What is told of an answer to a push.
    ghost pushed_as: { Self.Answer → Pushed };

    /// What is told of an answer to a push.
    fn to_pushed(answer: Self::Answer) -> Pushed
        ensures { result ≡ pushed_as answer };
}

impl<R: Keeper> HttpShop for Shop<R> {
    ghost use Rattle.desk_http.specs.declared.serving_desks.Pushed.TheVariants as pushed;

    ghost pushed_as = { λ reply. pushed.Replied reply };

    fn to_pushed(reply: Reply) -> Pushed {
        Pushed::Replied { reply }
    }
}
