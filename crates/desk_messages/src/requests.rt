//! What a request asks.

use git_object::RefName;
use octets::Octets;

/// Why a request is refused. The first cause in this order decides, but that a head or a body which is cut is a bad
/// request too.
#[derive(Debug, Clone, Copy, PartialEq, Eq, Drop)]
pub enum Refusal {
    /// No head, a wrong length, a name that is no reference's, or a body that is cut.
    BadRequest,
    /// No route fits the target.
    NotFound,
    /// The route has another method.
    MethodNotAllowed,
    /// A push says no length of its body.
    LengthRequired,
    /// A push's body is longer than 64 MiB.
    TooLarge { length: u64 },
}

/// What a request asks, or why there is none.
#[derive(Debug, PartialEq, Eq, Drop)]
pub enum Asked {
    /// How many entries there are, and the last one.
    Tip,
    /// The verdict on a reference, which is not the log's own.
    Verify { name: RefName },
    /// The whole repository.
    Stream,
    /// To take this push.
    Push { body: Octets },
    /// Nothing that is answered.
    Refused { why: Refusal },
    /// The input ended before its first byte.
    Silent,
    /// The source failed.
    LinkFailed,
    Memory,
}
