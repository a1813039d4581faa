//! Making the blobs and the trees of the listing that the source gives.

ghost use Rattle.std.specs.Prelude.{◌≡◌, ◌≤◌, ◌↔◌, All, IfOk, IfErr, IsTrue, length};
ghost use Rattle.octets.specs.Causes.{HasCause};
ghost use Rattle.object_making.specs.Reading.{IsRead};
ghost use Rattle.commands_snapshot.specs.Making.{InputEnds, IsSmall, MadeOf, WhyUnmade, source_failed};

use edge_io::{ReadFault, Source, read_all};
use git_object::{LARGEST_BODY, Object, ObjectId, Objects};
use object_making::{Listing, ListingFault, make_trees, read_listing};
use octets::Memory;
use std::alloc::Global;

/// The most bytes of a listing: 1 GiB.
pub const LARGEST_LISTING: usize = 1 << 30;

/// Why nothing was made of what the source gave.
#[derive(Clone, Copy, Debug, PartialEq, Eq)]
pub enum InputFault {
    /// The source gave more than 1 GiB.
    TooLong,
    /// What it gave is no listing, or one that passes a limit.
    NoListing,
    /// The paths are those of no tree of at most 32 levels.
    NoTree,
    /// A tree of the listing has more than 16 MiB.
    LargeTree,
    SourceFailed,
    Memory,
}

/// The objects of a listing, blobs first and then trees, and the id of the root's tree.
#[derive(Drop)]
pub struct Made {
    pub objects: Objects,
    pub root: ObjectId,
}

// Whether each object has at most 16 MiB.
fn are_small(objects: &[Object]) -> bool
    ensures { IsTrue result ↔ All IsSmall objects.now }
{
    objects
        .iter()
        .all(|object| object.body().len() as u64 <= LARGEST_BODY)
}

// The objects of a listing that was read.
fn make_objects(alloc: Global, text: &[u8], listing: Listing) -> Result<Made, InputFault>
    requires { IsRead text.now listing }
    ensures made { IfOk result (MadeOf text.now) }
    ensures why { IfErr result (WhyUnmade text.now) }
{
    let Listing { listed, blobs } = listing;
    let mut objects = blobs;
    let root = match make_trees(alloc, listed.as_slice(), &mut objects) {
        Ok(Some(root)) => root,
        Ok(None) => return Err(InputFault::NoTree),
        Err(Memory) => return Err(InputFault::Memory),
    };
    if !are_small(objects.as_slice()) {
        return Err(InputFault::LargeTree);
    }
    Ok(Made { objects, root })
}

// The objects of a listing.
fn make(alloc: Global, text: &[u8]) -> Result<Made, InputFault>
    ensures made { IfOk result (MadeOf text.now) }
    ensures why { IfErr result (WhyUnmade text.now) }
{
    match read_listing(alloc, text) {
        Ok(listing) => make_objects(alloc, text, listing),
        Err(ListingFault::Refused) => Err(InputFault::NoListing),
        Err(ListingFault::Memory) => Err(InputFault::Memory),
    }
}

/// Reads a source to its end, and makes the objects of the listing that it gave.
pub fn take_listing<S: Source>(alloc: Global, source: &mut S) -> Result<Made, InputFault>
    ensures ends { InputEnds (S.left source.old) (S.left source.new) result }
    ensures cause { HasCause source_failed (S.faults source.old) (S.faults source.new) result }
{
    let text = match read_all(alloc, source, LARGEST_LISTING) {
        Ok(text) => text,
        Err(ReadFault::TooLong) => return Err(InputFault::TooLong),
        Err(ReadFault::Failed) => return Err(InputFault::SourceFailed),
        Err(ReadFault::Memory) => return Err(InputFault::Memory),
    };
    match make(alloc, text.as_slice()) {
        Ok(made) => Ok(made),
        Err(InputFault::TooLong) => unreachable!(),
        Err(InputFault::NoListing) => Err(InputFault::NoListing),
        Err(InputFault::NoTree) => Err(InputFault::NoTree),
        Err(InputFault::LargeTree) => Err(InputFault::LargeTree),
        Err(InputFault::SourceFailed) => unreachable!(),
        Err(InputFault::Memory) => Err(InputFault::Memory),
    }
}
