//! Streams: a whole repository as one text, read piece by piece and written exactly.
//!
//! What it promises, and where to begin: `README.md` in this crate's folder.

#![tactic(auto)]

mod export;
mod export_faults;
mod grouped;
pub mod laws;
mod line_words;
mod record_reads;
mod record_writes;
mod records;
mod stream_faults;
mod stream_reads;
mod streams;
mod whole_records;

pub use export::write_stream;
pub use export_faults::ExportFault;
pub use line_words::split_head;
pub use record_writes::object_line;
pub use records::follows_object;
pub use stream_faults::StreamFault;
pub use stream_reads::{LARGEST_STREAM, read_change};
pub use streams::read_stream;
