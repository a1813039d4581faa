//! Laws over the definitions of this crate.

ghost use Rattle.std.specs.Prelude.{◌≡◌, ◌^◌};
ghost use Rattle.clone_stream.specs.ExportLaws.{OneExport};
ghost use Rattle.clone_stream.specs.Laws.{OneRefusal};
ghost use Rattle.clone_stream.specs.Streams.{OneSpelling, largest_stream};

use crate::LARGEST_STREAM;

/// Equal texts have equal repositories, and no stream text is a proper prefix of another.
pub fn one_spelling()
    ensures { OneSpelling }
{}

/// A repository has a text within the limit, a first damaged object that comes before it, or a text that passes
/// the limit before any: one of these at most, and one such object.
pub fn one_export()
    ensures { OneExport }
{}

/// An input is a stream within the limit or is refused: never both, and in one way alone.
pub fn one_refusal()
    ensures { OneRefusal }
{}

/// The limit of a stream that the code names is the one that the definitions name: 1 GiB.
pub fn limit()
    ensures code { LARGEST_STREAM ≡ 2 ^ 30 }
    ensures definition { largest_stream ≡ 2 ^ 30 }
{}
