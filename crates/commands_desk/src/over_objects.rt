//! The command over the objects that it uses, with what each outcome means.

pub use crate::readying::{ServeFault, serve, serve_ending};
