//! The bodies of entries.

ghost use Rattle.std.specs.Prelude.{◌≡◌, ◌==◌, ◌&&◌, Ok, length, IfOk, IfErr};
ghost use Rattle.rsl_chain.specs.Grammar.{may_end};
ghost use Rattle.rsl_chain.specs.Reading;
ghost use Rattle.rsl_chain.specs.Reading.{IsBadAs, IsReadTo, entry_as, entry_of, reading};

use crate::Entry;
use crate::entry_faults::EntryFault;
use crate::parts::{Parts, body_of, put};
use crate::places::{Place, Want};
use crate::rows::{may_end, step};
use git_object::{Kind, ObjectId, id_of};
use octets::Memory;
use std::alloc::Global;
use text_reader::split_line;

// Whether a body may end with these bytes behind its lines.
fn ends(want: Want, tail: &[u8]) -> bool
    ensures { result ≡ (may_end want && length tail.now == 0) }
{
    may_end(want) && tail.is_empty()
}

/// Reads a body line by line, and keeps its parts or not.
pub(crate) fn read_lines(
    alloc: Global,
    body: &[u8],
    keep: bool,
) -> Result<(Place, Parts), EntryFault>
    ensures read { IfOk result (λ found. IsReadTo (reading body.now) keep found.0 found.1) }
    ensures bad { IfErr result (IsBadAs (reading body.now)) }
{
    let mut place = Place {
        want: Want::Tree,
        parent: None,
        number: 0,
        ids: 0,
    };
    let mut parts = Parts::new(alloc);
    let mut rest = body;
    let mut number: u64 = 1;
    'lines: while let Some((line, more)) = split_line(rest) {
        let Some(next) = step(alloc, &place, line)? else {
            return Err(EntryFault::BadEntry { line: number });
        };
        put(&mut parts, keep, next.part, line)?;
        place = next.place;
        rest = more;
        number += 1;
    }
    if !ends(place.want, rest) {
        return Err(EntryFault::BadEntry { line: number });
    }
    Ok((place, parts))
}

// The entry of an id whose body was read.
fn entry_from(id: ObjectId, place: Place, parts: Parts) -> Entry
    ensures { result ≡ Reading.entry_from id (place, parts) }
{
    Entry {
        id,
        number: place.number,
        parent: place.parent,
        body: body_of(
            parts.name,
            parts.target,
            parts.ids,
            parts.skip,
            parts.message,
        ),
        signer: parts.signer,
        signature: parts.signature,
        signed: parts.signed,
    }
}

/// The entry of a body whose id is known.
pub(crate) fn read_as(alloc: Global, id: ObjectId, body: &[u8]) -> Result<Entry, EntryFault>
    ensures read { IfOk result (λ entry. entry_as id (reading body.now) ≡ Ok entry) }
    ensures bad { IfErr result (IsBadAs (reading body.now)) }
{
    let (place, parts) = read_lines(alloc, body, true)?;
    Ok(entry_from(id, place, parts))
}

/// The entry of a commit's body, by the grammar of log entries, with the id that the commit has. `BadEntry` names
/// the first line that is not as wanted, or one more than the number of lines where the body ends early.
pub fn read_body(alloc: Global, body: &[u8]) -> Result<Entry, EntryFault>
    ensures read { IfOk result (λ entry. entry_of body.now ≡ Ok entry) }
    ensures bad { IfErr result (IsBadAs (entry_of body.now)) }
{
    let (place, parts) = read_lines(alloc, body, true)?;
    Ok(entry_from(id_of(Kind::Commit, body), place, parts))
}
