//! Requests and replies of a desk as HTTP/1.1 has them: read, routed, answered, and asked for by a client.
//!
//! What it promises, and where to begin: `README.md` in this crate's folder.

#![tactic(auto)]

mod answering;
mod asking;
mod bodies;
mod client_fields;
mod client_heads;
pub mod client_laws;
mod fields;
mod heads;
pub mod laws;
mod reading;
mod receiving;
mod replies;
mod reply_bodies;
mod reply_heads;
pub mod reply_laws;
mod requests;
mod routes;
mod sending;
mod writing;

pub use asking::{Answer, ask_desk};
pub use fields::{Named, only_named, part_at};
pub use reading::read_request;
pub use replies::{BadReply, MOST_READ, read_reply};
pub use reply_bodies::{code_of, refusal_code};
pub use requests::{Asked, Refusal};
pub use sending::send_push;
pub use writing::{write_answer, write_refusal, write_reply, write_tip};
