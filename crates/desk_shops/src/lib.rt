//! A desk's and a gate's calls in turn, each with what it leaves of the one history; and the stream that is asked of
//! them.
//!
//! What it promises, and where to begin: `README.md` in this crate's folder.

#![tactic(auto)]

mod asked;
mod gate_asked;
pub mod gate_laws;
mod gate_shop;
mod judged;
pub mod laws;
mod shops;
mod short_texts;
mod text_faults;
mod texts;

pub use asked::reply_of_text;
pub use gate_shop::GateShop;
pub use judged::Judged;
pub use shops::Shop;
pub use short_texts::LARGEST_TEXT;
pub use text_faults::TextFault;
pub use texts::stream_text;
