//! The one-time signatures LM-OTS of RFC 8554, over SHA-256 with 32 bytes.
//!
//! What it promises, and where to begin: `README.md` in this crate's folder.
#![tactic(auto)]

mod chain;
mod digits;
mod hashes;
pub mod laws;
mod on_way;
mod one_time;
mod ots_type;
pub mod pieces;
mod side_by_side;
mod turns;

pub use one_time::{OtsFault, candidate_key, public_of, public_of_eight, sign_ots};
pub use ots_type::OtsType;
