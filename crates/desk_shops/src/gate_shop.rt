//! Shops of a gate.

ghost use Rattle.std.specs.Prelude.{◌≡◌};
ghost use Rattle.std.specs.Option.{is_some};
ghost use Rattle.desk_turns.specs.Histories.{History};
ghost use Rattle.desk_core.specs.States.{KnowsStore};
ghost use Rattle.desk_shops.specs.GateStanding.{IsJustLoadedState, Opens};
ghost use Rattle.desk_shops.specs.Calls.{IsLeftAlone};

use desk_core::GateState;
use desk_turns::Chronicle;
use keeper_api::Keeper;
use std::marker::Model;

/// A store, and the state of a gate beside it. What its engine knows of trees is so in what the store holds.
#[derive(Drop)]
pub struct GateShop<R: Keeper> {
    pub(crate) state: GateState,
    pub(crate) keeper: R,
}

impl<R: Keeper> Model for GateShop<R> {
    ghost use Rattle.std.specs.Coded.{codes};
    ghost use Rattle.desk_core.specs.contracts.gate_state.GateState as row;
    ghost use Rattle.desk_core.specs.declared.gate_state.GateState as states;
    ghost use Rattle.desk_core.specs.States.{KnowsStore};

    ghost Value = { states.GateState × R };

    ghost coded = { Prim.hlevel (codes, row.the_row.coded) };

    ghost view = { λ s. (s.state, s.keeper) };

    ghost invariant = { λ s. KnowsStore R.Keeper s.keeper s.state.engine };
}

impl<R: Keeper> Chronicle for GateShop<R> {
    ghost use Rattle.desk_turns.specs.Legal.{IsLegal};
    ghost use Rattle.desk_shops.specs.GateStanding.{Stands};

    ghost is_legal = { IsLegal };

    ghost stands = { λ s h. Stands R.Keeper s.1 s.0 h };

    ghost counted = { λ s. R.faults s.1 };

    fn len(&self) -> u64 {
        self.state.tip().0
    }

    fn faults(&self) -> u64 {
        self.keeper.faults()
    }

    ghost stands_legal = { λ s h is. is.desk.legal };
}

impl<R: Keeper> GateShop<R> {
    /// The shop of a store and a state beside it. Where the state was just loaded from the store, and a stop leaves of
    /// the store what it holds, the shop stands for a history with the entries of the log, all of nobody.
    pub fn new(state: GateState, keeper: R) -> GateShop<R>
        requires known { KnowsStore R.Keeper keeper state.engine }
        ensures parts { result ≡ (state, keeper) }
        ensures opens { IsJustLoadedState (R.content keeper) state → IsLeftAlone R.Keeper keeper
            → (h : History) × Opens R.Keeper keeper state h }
    {
        GateShop { state, keeper }
    }

    /// Whether an entry is in doubt. It takes no memory.
    pub fn in_doubt(&self) -> bool
        ensures { result ≡ is_some self.now.0.log.doubt }
    {
        self.state.in_doubt()
    }

    /// The state and the store.
    pub fn into_parts(self) -> (GateState, R)
        ensures parts { result ≡ self }
        ensures known { KnowsStore R.Keeper result.1 result.0.engine }
    {
        let GateShop { state, keeper } = self;
        (state, keeper)
    }
}
