// The steps on the table's words, and what each tells the seat that makes it.

use crate::chronicles::Chronicle;
use crate::seats::SeatView;
use atomic_table::Play;
use std::marker::PhantomData;

/// The first look at the first word, by the seat that makes the others.
pub struct FirstLook<S> {
    of: PhantomData<S>,
}

impl<S: Chronicle> Play<Option<S>, SeatView> for FirstLook<S> {
    ghost use Rattle.desk_turns.specs.Steps.{Opens};

    ghost then = { λ s me found after. Opens S.is_legal S.stands S.counted s me found after };
}

/// A look at the first word.
pub struct Looking<S> {
    of: PhantomData<S>,
}

impl<S: Chronicle> Play<Option<S>, SeatView> for Looking<S> {
    ghost use Rattle.desk_turns.specs.Steps.{Looks};

    ghost then = { λ s me found after. Looks S.is_legal S.stands S.counted s me found after };
}

/// A look at the first word, with what another seat told.
pub struct Merging<S> {
    of: PhantomData<S>,
}

impl<S: Chronicle> Play<Option<S>, SeatView> for Merging<S> {
    ghost use Rattle.desk_turns.specs.Steps.{Merges};

    ghost then = { λ s me found after. Merges S.is_legal S.stands S.counted s me found after };
}

/// The first word becomes odd: the turn is taken, and the state comes out of its place.
pub struct Taking<S> {
    of: PhantomData<S>,
}

impl<S: Chronicle> Play<Option<S>, SeatView> for Taking<S> {
    ghost use Rattle.desk_turns.specs.Steps.{Takes};

    ghost then = { λ s me found after. Takes S.is_legal S.stands S.counted s me found after };
}

/// The holder reads the second word, and the empty place goes home.
pub struct ReadingFaults<S> {
    of: PhantomData<S>,
}

impl<S: Chronicle> Play<Option<S>, SeatView> for ReadingFaults<S> {
    ghost use Rattle.desk_turns.specs.Steps.{Reads};

    ghost then = { λ s me found after. Reads S.is_legal S.stands S.counted s me found after };
}

/// The holder writes the second word, and takes the empty place.
pub struct WritingFaults<S> {
    of: PhantomData<S>,
}

impl<S: Chronicle> Play<Option<S>, SeatView> for WritingFaults<S> {
    ghost use Rattle.desk_turns.specs.Steps.{Writes};

    ghost then = { λ s me stored after. Writes S.is_legal S.stands S.counted s me stored after };
}

/// The first word becomes even: the turn is given back, with the state at its place.
pub struct Leaving<S> {
    of: PhantomData<S>,
}

impl<S: Chronicle> Play<Option<S>, SeatView> for Leaving<S> {
    ghost use Rattle.desk_turns.specs.Steps.{Leaves};

    ghost then = { λ s me stored after. Leaves S.is_legal S.stands S.counted s me stored after };
}

/// The same, with one member more.
pub struct LeavingWith<S> {
    of: PhantomData<S>,
}

impl<S: Chronicle> Play<Option<S>, SeatView> for LeavingWith<S> {
    ghost use Rattle.desk_turns.specs.Steps.{LeavesWith};

    ghost then = { λ s me stored after. LeavesWith S.is_legal S.stands S.counted s me stored after };
}
