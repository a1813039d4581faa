//! Pushes: an entry of the log and the objects that go with it, as one text; what a desk makes of one; and how one is
//! made.
//!
//! What it promises, and where to begin: `README.md` in this crate's folder.

#![tactic(auto)]

mod changing;
mod entry_lines;
mod gathering;
mod going;
pub mod laws;
mod log_replies;
mod make_faults;
mod making;
pub mod making_laws;
mod missing;
mod naming;
mod needing;
mod object_lines;
mod push_faults;
mod push_reads;
mod push_writes;
mod pushed;
mod records;
mod replies;
mod rows;
mod searching;
pub mod step_laws;
mod walking;

pub use changing::change_of;
pub use log_replies::{early, id_or_zeros, same_tip, tip_of};
pub use make_faults::MakeFault;
pub use making::make_push;
pub use needing::{first_missing, is_done, is_kept, put_names};
pub use push_faults::PushFault;
pub use push_reads::read_push;
pub use push_writes::write_push;
pub use pushed::{LARGEST_PUSH, Push};
pub use replies::Reply;
pub use rows::Row;
pub use searching::find_object;
