//! A listing of paths, and what of it stands below one place.

ghost use Rattle.std.specs.Prelude.{◌≡◌, ◌++◌};
ghost use Rattle.std.specs.List.{AllByRecursion};
ghost use Rattle.text_reader.specs.Line.{Begins};
ghost use Rattle.object_making.specs.Listings.{StopsAt};

use git_object::{Mode, ObjectId, Octets};
use text_reader::begins_with;

/// A path from the root, its names joined by `/`, with the mode and the id of what stands there.
#[derive(Drop)]
pub struct Listed {
    pub path: Octets,
    pub mode: Mode,
    pub id: ObjectId,
}

/// The paths at the head of a listing that begin with a place, and what follows them.
pub fn split_run<'a>(listing: &'a [Listed], place: &[u8]) -> (&'a [Listed], &'a [Listed])
    ensures whole { listing.now ≡ result.0.now ++ result.1.now }
    ensures run { AllByRecursion (λ listed. Begins place.now listed.path) result.0.now }
    ensures stop { StopsAt place.now result.1.now }
{
    'listing: for i in 0..listing.len() {
        if !begins_with(listing[i].path.as_slice(), place) {
            return listing.split_at(i);
        }
    }
    listing.split_at(listing.len())
}
