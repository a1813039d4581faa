//! The places of an entry's body, and what its lines say.

use crate::words::SignatureLine;
use git_object::{ObjectId, RefName};
use octets::Octets;

/// What is wanted as the next line.
#[derive(Clone, Copy, Debug, PartialEq, Eq, Drop)]
pub enum Want {
    Tree,
    ParentOrAuthor,
    Author,
    Committer,
    SignatureOrGap,
    Gap,
    Title,
    ReferenceGap,
    ReferenceName,
    ReferenceTarget,
    ReferenceNumber,
    AnnotationGap,
    FirstId,
    IdOrSkip,
    AnnotationNumber,
    MessageOrEnd,
    FirstPiece,
    PieceOrMessageEnd,
    MessageEnd,
    End,
}

/// How far a body is read: what is wanted next, and what the lines so far say that later ones must fit.
#[derive(Drop)]
pub struct Place {
    pub want: Want,
    pub parent: Option<ObjectId>,
    /// 0 before the number's line.
    pub number: u64,
    /// How many ids an annotation has so far.
    pub ids: u64,
}

/// What a line says.
#[derive(Drop)]
pub enum Part {
    Nothing,
    Parent(ObjectId),
    Signature(SignatureLine),
    Name(RefName),
    Target(ObjectId),
    Id(ObjectId),
    Skip(bool),
    Number(u64),
    Piece(Octets),
}

/// A line that is as wanted: the place after it, and what it says.
#[derive(Drop)]
pub struct Step {
    pub place: Place,
    pub part: Part,
}
