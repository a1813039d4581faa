// Each call of a turn and of a seat.

ghost use Rattle.desk_turns.specs.Seats.{IsIdle};

use crate::scene::{opened, two_seats};
use crate::{Refusal, Shop, id_at, push};
use desk_turns::{Seat, Turn};
use git_object::Memory;
use keeper_api::MemKeeper;
use std::alloc::Global;
use std::sync::Wait;

// Whether the seats are numbered from 1 in order.
fn are_numbered(seats: &[Seat]) -> bool {
    let mut number = 1u32;
    for seat in seats {
        if seat.number() != number {
            return false;
        }
        number = number.saturating_add(1);
    }
    true
}

#[test]
fn one_seat(rt: HostRuntime) -> Result<(), Memory> {
    let alloc = rt.alloc();
    let (turn, seats, mut seat) = opened(alloc, MemKeeper::new(alloc), 1)?;
    assert!(rt; seats.is_empty() && seat.number() == 1 && turn.count(&mut seat) == 0);
    let answer = push(&rt, alloc, &turn, &mut seat, None, &id_at(1, 0));
    assert!(rt; answer == Ok(1) && turn.count(&mut seat) == 1);
    Ok(())
}

#[test]
fn sixty_four_seats(rt: HostRuntime) -> Result<(), Memory> {
    let alloc = rt.alloc();
    let (turn, seats, mut seat) = opened(alloc, MemKeeper::new(alloc), 64)?;
    assert!(rt; seats.len() == 63 && are_numbered(seats.as_slice()) && seat.number() == 64);
    let answer = push(&rt, alloc, &turn, &mut seat, Some(0), &id_at(64, 0));
    assert!(rt; answer == Ok(1) && turn.count(&mut seat) == 1);
    Ok(())
}

#[test]
fn a_seat_that_is_dropped_leaves_the_turn_to_the_others(rt: HostRuntime) -> Result<(), Memory> {
    let alloc = rt.alloc();
    let (turn, mut first, mut second) = two_seats(alloc, MemKeeper::new(alloc))?;
    let before = push(&rt, alloc, &turn, &mut first, None, &id_at(1, 0));
    drop(first);
    let after = push(&rt, alloc, &turn, &mut second, None, &id_at(2, 0));
    assert!(rt; before == Ok(1) && after == Ok(2) && turn.count(&mut second) == 2);
    Ok(())
}

// Whether a seat goes on as itself once another is joined to it, over a history of one entry.
fn goes_on<W: Wait>(
    rt: &W,
    alloc: Global,
    turn: &Turn<Shop<MemKeeper>>,
    mut into: Seat,
    from: Seat,
) -> bool
    requires into { IsIdle turn.now into }
    requires from { IsIdle turn.now from }
{
    let number = into.number();
    turn.join(&mut into, from);
    let same = into.number() == number && turn.count(&mut into) == 1;
    same && push(rt, alloc, turn, &mut into, Some(1), &id_at(number, 0)) == Ok(2)
}

#[test]
fn a_seat_that_has_seen_more_is_joined(rt: HostRuntime) -> Result<(), Memory> {
    let alloc = rt.alloc();
    let (turn, mut first, second) = two_seats(alloc, MemKeeper::new(alloc))?;
    let answer = push(&rt, alloc, &turn, &mut first, None, &id_at(1, 0));
    assert!(rt; answer == Ok(1) && goes_on(&rt, alloc, &turn, second, first));
    Ok(())
}

#[test]
fn a_seat_that_has_seen_less_is_joined(rt: HostRuntime) -> Result<(), Memory> {
    let alloc = rt.alloc();
    let (turn, mut first, second) = two_seats(alloc, MemKeeper::new(alloc))?;
    let answer = push(&rt, alloc, &turn, &mut first, None, &id_at(1, 1));
    assert!(rt; answer == Ok(1) && goes_on(&rt, alloc, &turn, first, second));
    Ok(())
}

#[test]
fn each_refusal_gives_the_turn_back(rt: HostRuntime) -> Result<(), Memory> {
    let alloc = rt.alloc();
    let mut failing = Vec::new(alloc);
    failing.push(2)?;
    let keeper = MemKeeper::failing(MemKeeper::new(alloc), failing, Vec::new(alloc));
    let (turn, mut first, mut second) = two_seats(alloc, keeper)?;
    let done = push(&rt, alloc, &turn, &mut first, Some(0), &id_at(1, 0));
    let stale = push(&rt, alloc, &turn, &mut second, Some(0), &id_at(2, 0));
    let fault = push(&rt, alloc, &turn, &mut second, Some(1), &id_at(2, 0));
    let doubt = push(&rt, alloc, &turn, &mut first, None, &id_at(1, 1));
    assert!(rt; done == Ok(1) && stale == Err(Refusal::Stale { number: 1 }));
    assert!(rt; fault == Err(Refusal::Fault) && doubt == Err(Refusal::InDoubt));
    assert!(rt; turn.count(&mut first) == 1);
    Ok(())
}
