//! Reading a listing.

ghost use Rattle.std.specs.Prelude.{◌≡◌, ◌≤◌, ◌<◌, ◌⊎◌, ◌↔◌, ◌++◌, ◌∷◌, [], IfOk, IsErrOf, IsTrue, OnOk};
ghost use Rattle.object_making.specs.Reading.{IsNoListing, IsRead, blob_of, listed_of, row_of};
ghost use Rattle.object_making.specs.declared.listings.ListingFault.TheVariants as fault;

use crate::Listed;
use crate::rows::{RowParts, split_row};
use git_object::{Kind, Object, Objects};
use octets::{Items, Memory, Octets};
use std::alloc::Global;

/// The most rows of a listing.
pub const MOST_ROWS: usize = 262144;

/// The most bytes of all paths of a listing.
pub const MOST_PATH_BYTES: usize = 67108864;

/// A listing that was read: its paths in its order, each with its mode and the id of its blob, and the blobs.
#[derive(Drop)]
pub struct Listing {
    pub listed: Items<Listed>,
    pub blobs: Objects,
}

/// Why a text was not read as a listing.
#[derive(Clone, Copy, Debug, PartialEq, Eq, Drop)]
pub enum ListingFault {
    /// It is none, or passes a limit.
    Refused,
    Memory,
}

impl From<Memory> for ListingFault {
    ghost from_gives = { λ _ e. e ≡ fault.Memory };

    fn from(_error: Memory) -> ListingFault {
        ListingFault::Memory
    }
}

// Adds a row at the end.
fn push_row(alloc: Global, row: &RowParts<'_>, listing: &mut Listing) -> Result<(), Memory>
    ensures listed { OnOk result (listing.new.listed ≡ listing.old.listed
        ++ listed_of (row_of row.now.mode row.now.path.now row.now.body.now) ∷ []) }
    ensures blobs { OnOk result (listing.new.blobs ≡ listing.old.blobs
        ++ blob_of (row_of row.now.mode row.now.path.now row.now.body.now) ∷ []) }
{
    let blob = Object::new(alloc, Kind::Blob, Octets::from_slice(alloc, row.body)?)?;
    let listed = Listed {
        path: Octets::from_slice(alloc, row.path)?,
        mode: row.mode,
        id: blob.id(),
    };
    listing.listed.push(listed)?;
    listing.blobs.push(blob)?;
    Ok(())
}

// Whether one row more, with a path of so many bytes, passes a limit after so many rows.
fn is_past(rows: usize, path: usize, room: usize) -> bool
    ensures { IsTrue result ↔ ((262144 ≤ rows) ⊎ (room < path)) }
{
    rows >= MOST_ROWS || path > room
}

/// Reads a text as a listing: rows of a mode (`100644`, `100755` or `120000`), a space, a size in decimal, a space, a
/// path, a line feed, so many bytes, and a line feed. `Refused` comes exactly where the text is not that of rows each
/// of at most 16 MiB and with a path of at most 4,096 bytes, at most 262,144 of them, whose paths have at most 64 MiB.
pub fn read_listing(alloc: Global, text: &[u8]) -> Result<Listing, ListingFault>
    ensures read { IfOk result (IsRead text.now) }
    ensures refused { IsErrOf result ListingFault.Refused → IsNoListing text.now }
{
    let mut listing = Listing {
        listed: Items::new(alloc),
        blobs: Objects::new(alloc),
    };
    let mut rest = text;
    let mut room = MOST_PATH_BYTES;
    'rows: while !rest.is_empty() {
        let Some(found) = split_row(rest) else {
            return Err(ListingFault::Refused);
        };
        let row = found.0;
        if is_past(listing.listed.len(), row.path.len(), room) {
            return Err(ListingFault::Refused);
        }
        push_row(alloc, &row, &mut listing)?;
        room -= row.path.len();
        rest = found.1;
    }
    Ok(listing)
}
