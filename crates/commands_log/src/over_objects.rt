//! The commands over the objects that each uses, with what each outcome means and what it reads.

pub use crate::annotating::annotate;
pub use crate::logging::{log, log_ending};
pub use crate::recording::record;
