//! The command over the objects that it uses, with what each outcome means and what it reads.

pub use crate::filling::FillFault;
pub use crate::running::{DemoFault, demo, demo_ending};
