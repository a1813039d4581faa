//! The commands over the objects that each uses, with what each outcome means and what it reads.

pub use crate::exporting::{export, export_ending};
pub use crate::importing::{import, import_ending};
