// The shop as a state behind a turn.

use crate::shops::Shop;
use desk_turns::Chronicle;
use keeper_api::Keeper;

impl<R: Keeper> Chronicle for Shop<R> {
    ghost use Rattle.tests_turns.specs.Legal.{Legal};
    ghost use Rattle.tests_turns.specs.Shops.{Stands};

    ghost is_legal = { Legal };

    ghost stands = { Stands R.content R.faults };

    ghost counted = { λ s. R.faults s.keeper };

    fn len(&self) -> u64 {
        self.log.len() as u64
    }

    fn faults(&self) -> u64 {
        self.keeper.faults()
    }

    ghost stands_legal = { λ s h is. is.is_legal };
}
