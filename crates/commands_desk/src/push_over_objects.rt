//! The command over the objects that it uses, with what each outcome means.

pub use crate::faults::{PushFault, push_ending};
pub use crate::pushing::push;
