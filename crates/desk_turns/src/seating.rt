// How a table is made, with a state at its place, and its seats one after another.

ghost use Rattle.std.specs.Prelude.{◌≡◌, ◌+◌, ◌<◌, [], true, IfOk};
ghost use Rattle.desk_turns.specs.Histories.{History, IsAtStart};
ghost use Rattle.desk_turns.specs.Seats.{IsNew};
ghost use Rattle.desk_turns.specs.Views.{nobody};
ghost use Rattle.desk_turns.specs.Steps.{IsOf, IsFirst};

use crate::chronicles::Chronicle;
use crate::plays::FirstLook;
use crate::rule::{Board, Numbering, Token};
use crate::seats::Seat;
use atomic_table::Table;
use octets::Memory;
use std::alloc::Global;

/// The table with the state at its place, and a seat that knows nothing.
pub fn open<S: Chronicle + Drop>(alloc: Global, state: S) -> Result<(Board<S>, Token<S>), Memory>
    requires stands { (history : History) × S.stands state history × IsAtStart history }
    ensures { IfOk result (λ made. (made.0.shared.table_id.words ≡ 2)
        × (made.1.table_id ≡ made.0.shared.table_id) × (made.1.me ≡ (nobody true, []))) }
{
    let length = state.len();
    let words = [2 * length, state.faults()];
    let mut slots = Vec::new(alloc);
    slots.push(Some(state))?;
    match Table::new(alloc, &words, slots, &()) {
        Ok(made) => Ok(made),
        Err(_) => Err(Memory),
    }
}

/// The first look, with which the first seat is seat 1.
pub fn first_look<S: Chronicle>(board: &Board<S>, token: &mut Token<S>)
    requires table { IsOf board.now.shared.table_id token.old.table_id }
    requires me { token.old.me ≡ (nobody true, []) }
    ensures table { token.new.table_id ≡ token.old.table_id }
    ensures first { IsFirst S.is_legal 1 token.new.me }
{
    board.shared.load::<FirstLook<S>>(token, 0);
}

/// Splits off a seat of this number.
pub fn next_seat<S: Chronicle>(board: &Board<S>, token: &mut Token<S>, number: u32) -> Seat
    requires table { IsOf board.now.shared.table_id token.old.table_id }
    requires number { 0 < number }
    requires first { IsFirst S.is_legal number token.old.me }
    ensures table { token.new.table_id ≡ token.old.table_id }
    ensures first { IsFirst S.is_legal (number + 1) token.new.me }
    ensures seat { IsNew S.is_legal token.old.table_id number result }
{
    let next = board.shared.split_seat::<Numbering>(token);
    Seat {
        number,
        badge: next.into_badge(),
    }
}

/// The first seat, which has the last number.
pub fn last_seat<S: Chronicle>(token: Token<S>, number: u32) -> Seat
    requires number { 0 < number }
    requires first { IsFirst S.is_legal number token.me }
    ensures { IsNew S.is_legal token.table_id number result }
{
    Seat {
        number,
        badge: token.into_badge(),
    }
}
