// The calls of a turn over the table's own seats.

ghost use Rattle.std.specs.Prelude.{◌≡◌, ◌+◌, ◌*◌, ◌^◌, ◌<◌, [], ◌∷◌, true, false, None, Some};
ghost use Rattle.desk_turns.specs.Histories.{Member, count, with_member, IsTaggedFor};
ghost use Rattle.desk_turns.specs.Views.{freed, written};
ghost use Rattle.desk_turns.specs.Seated.{view_in};
ghost use Rattle.desk_turns.specs.Steps.{IsOf, HasTurn, HasTaken, HasGivenBack};

use crate::chronicles::Chronicle;
use crate::plays::{Leaving, LeavingWith, ReadingFaults, Taking, WritingFaults};
use crate::rule::{Board, Token};
use crate::seats::SeatView;
use crate::waiting::Sleepers;
use atomic_table::Badge;
use std::mem;
use std::sync::Wait;

/// The seat that a badge is. The badge stays behind blank.
pub fn lift<S>(badge: &mut Badge<SeatView>) -> Token<S>
    requires { badge.old.views ≡ view_in badge.old.views ∷ [] }
    ensures table { result.table_id ≡ badge.old.table_id }
    ensures me { result.me ≡ (view_in badge.old.views, []) }
{
    mem::replace(badge, Badge::blank()).into_seat()
}

// Tries to take the turn where the first word is twice this.
fn try_take<S: Chronicle>(board: &Board<S>, token: &mut Token<S>, half: u64) -> bool
    requires table { IsOf board.now.shared.table_id token.old.table_id }
    requires seat { (0 < token.old.me.0.number) × (token.old.me.1 ≡ []) }
    requires room { half < 2 ^ 62 }
    ensures table { token.new.table_id ≡ token.old.table_id }
    ensures took { result ≡ true
        → HasTurn S.is_legal S.stands S.counted (2 * half) token.old.me.0 token.new.me }
    ensures same { result ≡ false → token.new.me ≡ token.old.me }
{
    let free = 2 * half;
    board
        .shared
        .compare_exchange::<Taking<S>>(token, 0, free, free + 1)
        == free
}

// Takes the state out of its place, reads the second word, and puts the empty place back.
fn take_out<S: Chronicle + Drop>(board: &Board<S>, token: &mut Token<S>) -> S
    requires table { IsOf board.now.shared.table_id token.old.table_id }
    requires holds { (token.old.me.0.holds ≡ true) × (token.old.me.0.out ≡ true) }
    requires slot { (state : S) × (token.old.me.1 ≡ (0, Some state) ∷ []) }
    ensures table { token.new.table_id ≡ token.old.table_id }
    ensures slot { token.old.me.1 ≡ (0, Some result) ∷ [] }
    ensures is { token.new.me ≡ (record token.old.me.0 { out = false }, []) }
{
    let Some(state) = board.shared.exchange(token, 0, None) else {
        unreachable!()
    };
    board.shared.load::<ReadingFaults<S>>(token, 1);
    state
}

// Writes the second word, and puts the state at its place.
fn put_in<S: Chronicle + Drop>(board: &Board<S>, token: &mut Token<S>, state: S)
    requires table { IsOf board.now.shared.table_id token.old.table_id }
    requires holds { (token.old.me.0.holds ≡ true) × (token.old.me.0.out ≡ false) }
    requires slot { token.old.me.1 ≡ [] }
    ensures table { (token.new.table_id ≡ token.old.table_id) × (token.new.id ≡ token.old.id) }
    ensures is { token.new.me ≡ (written (S.counted state) token.old.me.0, (0, Some state) ∷ []) }
{
    let faults = state.faults();
    board.shared.store::<WritingFaults<S>>(token, 1, faults);
    drop(board.shared.exchange(token, 0, Some(state)));
}

/// Waits for the turn, and takes it.
pub fn take_turn<S: Chronicle + Drop, R: Wait>(
    rt: &R,
    board: &Board<S>,
    sleepers: &Sleepers,
    token: &mut Token<S>,
) -> S
    requires table { IsOf board.now.shared.table_id token.old.table_id }
    requires seat { (0 < token.old.me.0.number) × (token.old.me.1 ≡ []) }
    ensures table { token.new.table_id ≡ token.old.table_id }
    ensures took { HasTaken S.stands S.counted result token.old.me.0 token.new.me }
{
    for _ in rt.forever() {
        let word = board.shared.peek(0);
        if word % 2 == 1 {
            sleepers.wait(rt, board, word);
            continue;
        }
        let half = word / 2;
        if half < 1 << 62 && try_take(board, token, half) {
            return take_out(board, token);
        }
    }
    unreachable!()
}

/// Gives the turn back.
pub fn give_back<S: Chronicle + Drop>(board: &Board<S>, token: &mut Token<S>, state: S)
    requires table { IsOf board.now.shared.table_id token.old.table_id }
    requires holds { (token.old.me.0.holds ≡ true) × (token.old.me.0.out ≡ false) }
    requires slot { token.old.me.1 ≡ [] }
    requires stands { S.stands state token.old.me.0.seen }
    requires room { count token.old.me.0.seen < 2 ^ 62 }
    ensures table { token.new.table_id ≡ token.old.table_id }
    ensures is { token.new.me ≡ (freed (written (S.counted state) token.old.me.0), []) }
{
    let length = state.len();
    put_in(board, token, state);
    let free = 2 * length;
    board.shared.store::<Leaving<S>>(token, 0, free);
}

/// Gives the turn back with one member more.
pub fn give_back_with<S: Chronicle + Drop>(board: &Board<S>, token: &mut Token<S>, state: S)
    requires table { IsOf board.now.shared.table_id token.old.table_id }
    requires holds { (token.old.me.0.holds ≡ true) × (token.old.me.0.out ≡ false) }
    requires slot { token.old.me.1 ≡ [] }
    requires member { (member : Member) × S.stands state (with_member token.old.me.0.seen member)
        × IsTaggedFor token.old.me.0.number member }
    requires room { count token.old.me.0.seen + 1 < 2 ^ 62 }
    ensures table { token.new.table_id ≡ token.old.table_id }
    ensures is { HasGivenBack S.stands S.counted state token.old.me token.new.me }
{
    let length = state.len();
    put_in(board, token, state);
    let free = 2 * length;
    board.shared.store::<LeavingWith<S>>(token, 0, free);
}
