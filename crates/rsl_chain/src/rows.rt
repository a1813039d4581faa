//! The table of an entry's body: what a line does at each place.

ghost use Rattle.std.specs.Prelude.{◌≡◌, IfOk};
ghost use Rattle.rsl_chain.specs.Grammar;
ghost use Rattle.rsl_chain.specs.Lines.{is_full};
ghost use Rattle.rsl_chain.specs.declared.places.Want.TheVariants as Want;

use crate::places::{Part, Place, Step, Want};
use crate::words::{
    SignatureLine, begins, id_after, is_full, is_line, name_after, number_after, piece_text,
    signature_after,
};
use git_object::{ObjectId, RefName};
use octets::{Memory, Octets};
use std::alloc::Global;

pub(crate) const TREE_LINE: &[u8] =
    b"tree 6ef19b41225c5369f1c104d45d8d85efa9b057b53b14b4b9b939dd74decc5321";

pub(crate) const MESSAGE_BEGIN: &[u8] = b"-----BEGIN MESSAGE-----";

pub(crate) const MESSAGE_END: &[u8] = b"-----END MESSAGE-----";

fn goes(want: Want, part: Part, at: &Place) -> Option<Step>
    ensures { result ≡ Grammar.goes want part at.now }
{
    let place = Place {
        want,
        parent: at.parent,
        number: at.number,
        ids: at.ids,
    };
    Some(Step { place, part })
}

fn plain_if(is: bool, want: Want, at: &Place) -> Option<Step>
    ensures { result ≡ Grammar.plain_if is want at.now }
{
    if !is {
        return None;
    }
    goes(want, Part::Nothing, at)
}

fn author_step(line: &[u8], at: &Place) -> Option<Step>
    ensures { result ≡ Grammar.author_step line.now at.now }
{
    plain_if(begins(line, b"author "), Want::Committer, at)
}

fn parent_step(parent: Option<ObjectId>, line: &[u8], at: &Place) -> Option<Step>
    ensures { result ≡ Grammar.parent_step parent line.now at.now }
{
    match parent {
        Some(id) => {
            let place = Place {
                want: Want::Author,
                parent: Some(id),
                number: at.number,
                ids: at.ids,
            };
            let part = Part::Parent(id);
            Some(Step { place, part })
        }
        None => author_step(line, at),
    }
}

fn signature_step(found: Option<SignatureLine>, line: &[u8], at: &Place) -> Option<Step>
    ensures { result ≡ Grammar.signature_step found line.now at.now }
{
    match found {
        Some(found) => goes(Want::Gap, Part::Signature(found), at),
        None => plain_if(line.is_empty(), Want::Title, at),
    }
}

fn title_step(line: &[u8], at: &Place) -> Option<Step>
    ensures { result ≡ Grammar.row Want.Title line.now at.now }
{
    if is_line(line, b"RSL Reference Entry") {
        return goes(Want::ReferenceGap, Part::Nothing, at);
    }
    plain_if(
        is_line(line, b"RSL Annotation Entry"),
        Want::AnnotationGap,
        at,
    )
}

fn name_step(name: Option<RefName>, at: &Place) -> Option<Step>
    ensures { result ≡ Grammar.name_step name at.now }
{
    match name {
        Some(name) => goes(Want::ReferenceTarget, Part::Name(name), at),
        None => None,
    }
}

fn target_step(id: Option<ObjectId>, at: &Place) -> Option<Step>
    ensures { result ≡ Grammar.target_step id at.now }
{
    match id {
        Some(id) => goes(Want::ReferenceNumber, Part::Target(id), at),
        None => None,
    }
}

fn fits(number: u64, parent: &Option<ObjectId>) -> bool
    ensures { result ≡ Grammar.fits number parent.now }
{
    match parent {
        None => number == 1,
        Some(_) => 2 <= number,
    }
}

fn number_step(want: Want, number: Option<u64>, at: &Place) -> Option<Step>
    ensures { result ≡ Grammar.number_step want number at.now }
{
    match number {
        Some(number) => {
            if !fits(number, &at.parent) {
                return None;
            }
            let place = Place {
                want,
                parent: at.parent,
                number,
                ids: at.ids,
            };
            let part = Part::Number(number);
            Some(Step { place, part })
        }
        None => None,
    }
}

fn first_id_step(id: Option<ObjectId>, at: &Place) -> Option<Step>
    ensures { result ≡ Grammar.first_id_step id at.now }
{
    match id {
        Some(id) => {
            let place = Place {
                want: Want::IdOrSkip,
                parent: at.parent,
                number: at.number,
                ids: 1,
            };
            let part = Part::Id(id);
            Some(Step { place, part })
        }
        None => None,
    }
}

fn id_step(id: Option<ObjectId>, at: &Place) -> Option<Step>
    ensures { result ≡ Grammar.id_step id at.now }
{
    match id {
        Some(id) => {
            if at.ids >= 256 {
                return None;
            }
            let place = Place {
                want: Want::IdOrSkip,
                parent: at.parent,
                number: at.number,
                ids: at.ids + 1,
            };
            let part = Part::Id(id);
            Some(Step { place, part })
        }
        None => None,
    }
}

fn skip_step(line: &[u8], at: &Place) -> Option<Step>
    ensures { result ≡ Grammar.id_or_skip_step None line.now at.now }
{
    if is_line(line, b"skip: true") {
        return goes(Want::AnnotationNumber, Part::Skip(true), at);
    }
    if is_line(line, b"skip: false") {
        return goes(Want::AnnotationNumber, Part::Skip(false), at);
    }
    None
}

fn id_or_skip_step(id: Option<ObjectId>, line: &[u8], at: &Place) -> Option<Step>
    ensures { result ≡ Grammar.id_or_skip_step id line.now at.now }
{
    match id {
        Some(id) => id_step(Some(id), at),
        None => skip_step(line, at),
    }
}

fn piece_want(full: bool) -> Want
    ensures { result ≡ Grammar.piece_want full }
{
    if full {
        return Want::PieceOrMessageEnd;
    }
    Want::MessageEnd
}

fn piece_step(bytes: Option<Octets>, line: &[u8], at: &Place) -> Option<Step>
    ensures { result ≡ Grammar.piece_step bytes (is_full line.now) at.now }
{
    match bytes {
        Some(bytes) => goes(piece_want(is_full(line)), Part::Piece(bytes), at),
        None => None,
    }
}

fn piece_or_end_step(alloc: Global, line: &[u8], at: &Place) -> Result<Option<Step>, Memory>
    ensures { IfOk result (λ found. found ≡ Grammar.row Want.PieceOrMessageEnd line.now at.now) }
{
    if is_line(line, MESSAGE_END) {
        return Ok(goes(Want::End, Part::Nothing, at));
    }
    Ok(piece_step(piece_text(alloc, line)?, line, at))
}

/// The step that a line takes from a place, or None where the line is not as wanted there.
#[tactic(auto, unfolding(crate::specs::Grammar::step))]
pub(crate) fn step(alloc: Global, at: &Place, line: &[u8]) -> Result<Option<Step>, Memory>
    ensures { IfOk result (λ found. found ≡ Grammar.step at.now line.now) }
{
    match at.want {
        Want::Tree => Ok(plain_if(is_line(line, TREE_LINE), Want::ParentOrAuthor, at)),
        Want::ParentOrAuthor => Ok(parent_step(id_after(line, b"parent "), line, at)),
        Want::Author => Ok(author_step(line, at)),
        Want::Committer => Ok(plain_if(begins(line, b"committer "), Want::SignatureOrGap, at)),
        Want::SignatureOrGap => Ok(signature_step(signature_after(alloc, line)?, line, at)),
        Want::Gap => Ok(plain_if(line.is_empty(), Want::Title, at)),
        Want::Title => Ok(title_step(line, at)),
        Want::ReferenceGap => Ok(plain_if(line.is_empty(), Want::ReferenceName, at)),
        Want::ReferenceName => Ok(name_step(name_after(alloc, line)?, at)),
        Want::ReferenceTarget => Ok(target_step(id_after(line, b"targetID: "), at)),
        Want::ReferenceNumber => Ok(number_step(Want::End, number_after(line), at)),
        Want::AnnotationGap => Ok(plain_if(line.is_empty(), Want::FirstId, at)),
        Want::FirstId => Ok(first_id_step(id_after(line, b"entryID: "), at)),
        Want::IdOrSkip => Ok(id_or_skip_step(id_after(line, b"entryID: "), line, at)),
        Want::AnnotationNumber => Ok(number_step(Want::MessageOrEnd, number_after(line), at)),
        Want::MessageOrEnd => Ok(plain_if(is_line(line, MESSAGE_BEGIN), Want::FirstPiece, at)),
        Want::FirstPiece => Ok(piece_step(piece_text(alloc, line)?, line, at)),
        Want::PieceOrMessageEnd => piece_or_end_step(alloc, line, at),
        Want::MessageEnd => Ok(plain_if(is_line(line, MESSAGE_END), Want::End, at)),
        Want::End => Ok(None),
    }
}

/// Whether a body may end at the place.
pub(crate) fn may_end(want: Want) -> bool
    ensures { result ≡ Grammar.may_end want }
{
    matches!(want, Want::MessageOrEnd | Want::End)
}
