// How callers wait for the turn, and wake each other.

ghost use Rattle.std.specs.Prelude.{◌≡◌};

use crate::chronicles::Chronicle;
use crate::rule::Board;
use std::hint::spin_loop;
use std::sync::Wait;
use std::sync::atomic::{AtomicU64, Ordering};

// How often a caller looks again before it sleeps.
const LOOKS: u32 = 100;

/// How many callers sleep until the turn is free, or are about to. No clause knows the number: it spares who gives the
/// turn back a call of the system where nobody sleeps.
#[derive(Drop)]
pub struct Sleepers {
    count: AtomicU64,
}

impl Sleepers {
    pub fn none() -> Sleepers {
        Sleepers {
            count: AtomicU64::new(0),
        }
    }

    /// Waits while the first word is this one, or less long.
    pub fn wait<S: Chronicle, R: Wait>(&self, rt: &R, board: &Board<S>, word: u64)
        requires { board.now.shared.table_id.words ≡ 2 }
    {
        for _ in 0..LOOKS {
            if board.shared.peek(0) != word {
                return;
            }
            spin_loop();
        }
        // Who gives the turn back writes the word and then reads the count, so one of the two sees the other.
        self.count.fetch_add(1, Ordering::SeqCst);
        board.shared.park(rt, 0, (word % (1 << 32)) as u32);
        self.count.fetch_sub(1, Ordering::SeqCst);
    }

    /// Wakes one of those who sleep, if there is one.
    pub fn wake<S: Chronicle>(&self, board: &Board<S>)
        requires { board.now.shared.table_id.words ≡ 2 }
    {
        if self.count.load(Ordering::SeqCst) != 0 {
            board.shared.wake_one(0);
        }
    }
}
