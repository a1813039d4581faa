//! What a gate answers of a push.

use octets::Octets;
use pushes::Reply;

/// What is answered of a push.
#[derive(Drop)]
pub enum GateReply {
    /// What a desk answers.
    Desk(Reply),
    /// The entry of this number would be a violation, which the line tells.
    Denied { number: u64, line: Octets },
}
