//! The commands over the objects that each uses, with what each outcome means and what it reads.

pub use crate::applying::{ApplyFault, policy_apply};
pub use crate::explaining::{explain, explain_ending};
pub use crate::outcomes::apply_ending;
