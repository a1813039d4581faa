//! A reader with a buffer before a source, which takes no more bytes than a limit.
//!
//! What it promises, and where to begin: `README.md` in this crate's folder.

#![tactic(auto)]

mod exact_reads;
mod line_reads;
mod lines;
mod reader;
mod space;

pub use exact_reads::ExactFault;
pub use line_reads::LineFault;
pub use lines::Line;
pub use reader::BufferedReader;
