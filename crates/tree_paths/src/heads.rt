//! What peeling finds at an id, and where it ends.

use git_object::{Kind, ObjectId};

/// A commit with its tree, a tag with the object and the kind that it names, or anything else.
#[derive(Clone, Copy, Debug, PartialEq, Eq)]
pub enum TargetHead {
    Other,
    Root(ObjectId),
    Next(ObjectId, Kind),
}

/// Where peeling of a target ends: there is nothing, an object is bad, or there is a commit of this tree.
#[derive(Clone, Copy, Debug, PartialEq, Eq)]
pub enum Peeled {
    Nothing,
    Bad(ObjectId),
    At { commit: ObjectId, tree: ObjectId },
}
