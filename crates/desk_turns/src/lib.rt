//! The turn that those who call a desk take, the log of what was answered in it, and the one legal history that all of
//! them see.
//!
//! What it promises, and where to begin: `README.md` in this crate's folder.

#![tactic(auto)]

mod asking;
mod chronicles;
mod desk_log;
mod desks;
mod entering;
pub mod history_laws;
pub mod laws;
pub mod log_laws;
mod plays;
mod pushing;
mod rule;
mod seating;
mod seats;
mod settled;
mod settling;
mod shops;
mod steps;
mod turns;
mod waiting;

pub use chronicles::Chronicle;
pub use desk_log::DeskLog;
pub use desks::Desk;
pub use seats::Seat;
pub use settled::Settled;
pub use shops::DeskShop;
pub use turns::Turn;
