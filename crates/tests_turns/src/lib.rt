//! A small shop behind a turn, workers that push into it side by side, and tests of turns and seats by them.
//!
//! What it promises, and where to begin: `README.md` in this crate's folder.

#![tactic(auto)]

#[cfg(test)]
mod many_turns;
#[cfg(test)]
mod meetings;
mod pushing;
#[cfg(test)]
mod scene;
#[cfg(test)]
mod seat_calls;
mod shop_chronicles;
mod shops;
mod workers;

pub use pushing::{push, push_as};
pub use shops::{Logged, Refusal, Shop};
pub use workers::{
    Gate, NoGate, Point, Worker, id_at, last_of, serve_all, serve_worker, workers_of,
};
