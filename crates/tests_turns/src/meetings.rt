// Two workers that meet: the one that comes first goes on only once the other one has its answer.

ghost use Rattle.std.specs.Prelude.{All, IfOk};
ghost use Rattle.desk_turns.specs.Seats.{IsIdle};

use crate::{Gate, Point, Refusal, Shop, Worker, serve_all, workers_of};
use desk_turns::Turn;
use git_object::Memory;
use keeper_api::MemKeeper;
use std::alloc::Global;
use std::sync::atomic::{AtomicU64, Ordering};
use std::thread;

const LOOKS: u32 = 10_000_000;

// Holds the worker that comes first to `Point::Read` until another one has passed `Point::Answered`, and fails after so
// many looks. It yields at each, since so many loads alone take less time than another thread may need to start.
#[derive(Drop)]
struct Meeting {
    first: AtomicU64,
    answered: AtomicU64,
    failed: AtomicU64,
}

impl Meeting {
    fn new() -> Meeting {
        Meeting {
            first: AtomicU64::new(0),
            answered: AtomicU64::new(0),
            failed: AtomicU64::new(0),
        }
    }

    fn has_failed(&self) -> bool {
        self.failed.load(Ordering::SeqCst) != 0
    }
}

impl Gate for Meeting {
    fn pass(&self, seat: u32, point: Point) {
        let seat = seat as u64;
        match point {
            Point::Read => {
                if self
                    .first
                    .compare_exchange(0, seat, Ordering::SeqCst, Ordering::SeqCst)
                    .is_ok()
                {
                    for _ in 0..LOOKS {
                        if self.answered.load(Ordering::SeqCst) != 0 {
                            return;
                        }
                        thread::yield_now();
                    }
                    self.failed.store(1, Ordering::SeqCst);
                }
            }
            Point::Answered => {
                if self.first.load(Ordering::SeqCst) != seat {
                    self.answered.store(1, Ordering::SeqCst);
                }
            }
        }
    }
}

// Two workers over one empty store.
fn two_workers(alloc: Global) -> Result<(Turn<Shop<MemKeeper>>, Vec<Worker>), Memory>
    ensures { IfOk result (λ made. All (λ w. IsIdle made.0 w.seat) made.1.items) }
{
    let (turn, seats) = Turn::new(alloc, Shop::new(alloc, MemKeeper::new(alloc)), 2)?;
    let workers = workers_of(alloc, seats)?;
    Ok((turn, workers))
}

// Whether these are the answers, in either order.
fn are(workers: &[Worker], one: u64, other: u64) -> bool {
    let [a, b] = workers else {
        return false;
    };
    let pair = (a.end, b.end);
    pair == (Some(Ok(one)), Some(Ok(other))) || pair == (Some(Ok(other)), Some(Ok(one)))
}

#[test]
fn gate_two_workers(rt: HostRuntime) -> Result<(), Memory> {
    let alloc = rt.alloc();
    let (turn, mut workers) = two_workers(alloc)?;
    let meeting = Meeting::new();
    serve_all(&rt, alloc, &turn, workers.as_mut_slice(), &meeting, 1);
    assert!(rt; !meeting.has_failed());
    assert!(rt; are(workers.as_slice(), 1, 2));
    Ok(())
}
