//! The command over the objects that it uses, with what each outcome means and what it reads.

pub use crate::approving::{ApproveFault, approve};
pub use crate::ends::Ends;
pub use crate::outcomes::approve_ending;
