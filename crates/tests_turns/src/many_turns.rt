// Many turns of many workers.

use crate::scene::{opened, read_log};
use crate::{NoGate, Worker, serve_all, workers_of};
use git_object::Memory;
use keeper_api::MemKeeper;

const PUSHES: u32 = 10_000;

// Whether each worker that does not look first has added an entry by each of its pushes.
fn have_added(workers: &[Worker]) -> bool {
    workers
        .iter()
        .all(|worker| worker.looks || worker.added == PUSHES)
}

#[test]
fn eight_workers_make_one_whole_history(rt: HostRuntime) -> Result<(), Memory> {
    let alloc = rt.alloc();
    let (turn, seats, mut apart) = opened(alloc, MemKeeper::new(alloc), 9)?;
    let mut workers = workers_of(alloc, seats)?;
    serve_all(&rt, alloc, &turn, workers.as_mut_slice(), &NoGate, PUSHES);
    let (whole, length) = read_log(&rt, &turn, &mut apart, workers.as_slice());
    assert!(rt; whole && have_added(workers.as_slice()));
    assert!(rt; workers.len() == 8 && turn.count(&mut apart) == length);
    Ok(())
}
