//! The leaves of parsing: each takes something off the front of a text and says exactly what.
//!
//! What it promises, and where to begin: `README.md` in this crate's folder.

#![tactic(auto)]

mod decimal_number;
mod front;
mod hexadecimal;
pub mod laws;
mod number;

pub use decimal_number::read_decimal;
pub use front::{
    begins_with, same_bytes, split_at_zero, split_front, split_line, split_word, strip_front,
};
pub use hexadecimal::{is_lower_hexadecimal, read_hexadecimal};
pub use number::{NumberFault, is_number, read_decimal_within};
