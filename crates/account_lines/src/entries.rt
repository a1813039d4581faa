//! The line of an entry.

ghost use Rattle.std.specs.Prelude.{◌≡◌, ◌++◌, codes, IfOk, OnOk};
ghost use Rattle.serde_json.specs.Data.{member};
ghost use Rattle.serde_json.specs.Written.{compact_text};
ghost use Rattle.json_fields.specs.Writing.{Follows, Opens};
ghost use Rattle.account_lines.specs.Lines.{annotation_data, annotation_word, body_data, entry_line, judged_members};
ghost use Rattle.account_lines.specs.Lines.{listing_members, noting_members, placed_members, reference_data};
ghost use Rattle.account_lines.specs.Lines.{refusal_data, signed_members, verdict_word};

use crate::changes::write_changed;
use crate::faults::write_fault;
use crate::made::{open_with_author, time_of};
use crate::{EntryRow, Later};
use entry_rules::Fault;
use git_object::{Ids, ObjectId, RefName};
use json_fields::{next_field, next_name, next_word, write_null};
use judging::EntryVerdict;
use octets::{Memory, Octets};
use rsl_chain::{Entry, EntryBody};
use std::alloc::Global;

// The room that a line has from the beginning, in bytes.
const LINE_ROOM: usize = 1024;

fn verdict_word(verdict: &EntryVerdict<Fault>) -> &'static str
    ensures { result.now ≡ verdict_word verdict.now }
{
    match verdict {
        EntryVerdict::Authorised => "authorised",
        EntryVerdict::Refused(_) => "refused",
        EntryVerdict::Noted => "noted",
    }
}

// Writes the fault of an entry that is refused, and else null.
fn write_refusal(text: &mut Octets, verdict: &EntryVerdict<Fault>) -> Result<(), Memory>
    ensures { OnOk result (text.new ≡ text.old ++ compact_text (refusal_data verdict.now)) }
{
    match verdict {
        EntryVerdict::Authorised => write_null(text),
        EntryVerdict::Refused(fault) => write_fault(text, fault),
        EntryVerdict::Noted => write_null(text),
    }
}

// Writes after other fields the fault of an entry that is refused.
fn fault_field(text: &mut Octets, verdict: &EntryVerdict<Fault>) -> Result<(), Memory>
    ensures { OnOk result (Follows (member (codes "fault") (refusal_data verdict.now)) text.old text.new) }
{
    next_name(text, "fault")?;
    write_refusal(text, verdict)
}

// Opens the object of an entry of a reference with who made it, and how it was judged.
fn write_judged(text: &mut Octets, entry: &Entry, row: &EntryRow) -> Result<(), Memory>
    ensures { OnOk result (Opens (judged_members entry.now row.now) text.old text.new) }
{
    open_with_author(text, entry)?;
    write_changed(text, &row.changed)?;
    next_field(text, "epoch", &row.epoch)?;
    fault_field(text, &row.verdict)?;
    next_field(text, "from", &row.from)?;
    next_field(text, "id", &entry.id)?;
    next_field(text, "key", &entry.signer)
}

// Writes after other fields where an entry of a reference stands.
fn write_placed(
    text: &mut Octets,
    entry: &Entry,
    name: &RefName,
    row: &EntryRow,
    later: &Later,
) -> Result<(), Memory>
    ensures { OnOk result (Follows (placed_members entry.now name.now row.now later.now) text.old text.new) }
{
    next_word(text, "kind", "reference")?;
    next_field(text, "number", &entry.number)?;
    next_field(text, "persons", &row.persons)?;
    next_field(text, "prior", &row.prior)?;
    next_field(text, "reference", name)?;
    next_field(text, "rescued", &later.rescuer)
}

// Writes after other fields who signed an entry of a reference, and what it records.
fn write_signed(
    text: &mut Octets,
    entry: &Entry,
    target: &ObjectId,
    row: &EntryRow,
    later: &Later,
) -> Result<(), Memory>
    ensures { OnOk result (Follows (signed_members entry.now target.now row.now later.now) text.old text.new) }
{
    next_field(text, "signed", &row.signed)?;
    next_field(text, "signers", &row.signers)?;
    next_field(text, "skipped", &later.skipper)?;
    next_field(text, "target", target)?;
    next_field(text, "time", &time_of(entry))?;
    next_word(text, "verdict", verdict_word(&row.verdict))
}

fn write_reference(
    text: &mut Octets,
    entry: &Entry,
    name: &RefName,
    target: &ObjectId,
    row: &EntryRow,
    later: &Later,
) -> Result<(), Memory>
    ensures { OnOk result (text.new
        ≡ text.old ++ compact_text (reference_data entry.now name.now target.now row.now later.now)) }
{
    write_judged(text, entry, row)?;
    write_placed(text, entry, name, row, later)?;
    write_signed(text, entry, target, row, later)?;
    text.push(b'}')
}

// Whether an annotation skips what it lists.
fn annotation_word(skip: bool) -> &'static str
    ensures { result.now ≡ annotation_word skip }
{
    if skip { "skip" } else { "note" }
}

// Opens the object of an annotation with who made it, and what it lists.
fn write_listing(
    text: &mut Octets,
    entry: &Entry,
    ids: &Ids,
    skip: bool,
    row: &EntryRow,
) -> Result<(), Memory>
    ensures { OnOk result (Opens (listing_members entry.now ids.now skip row.now) text.old text.new) }
{
    open_with_author(text, entry)?;
    next_field(text, "entries", ids)?;
    next_field(text, "epoch", &row.epoch)?;
    next_field(text, "id", &entry.id)?;
    next_field(text, "key", &entry.signer)?;
    next_word(text, "kind", annotation_word(skip))
}

// Writes after other fields what an annotation says, and who signed it.
fn write_noting(
    text: &mut Octets,
    entry: &Entry,
    message: &Octets,
    row: &EntryRow,
) -> Result<(), Memory>
    ensures { OnOk result (Follows (noting_members entry.now message.now row.now) text.old text.new) }
{
    next_field(text, "message", message)?;
    next_field(text, "number", &entry.number)?;
    next_field(text, "persons", &row.persons)?;
    next_field(text, "signed", &row.signed)?;
    next_field(text, "time", &time_of(entry))?;
    next_word(text, "verdict", verdict_word(&row.verdict))
}

fn write_annotation(
    text: &mut Octets,
    entry: &Entry,
    ids: &Ids,
    skip: bool,
    message: &Octets,
    row: &EntryRow,
) -> Result<(), Memory>
    ensures { OnOk result (text.new
        ≡ text.old ++ compact_text (annotation_data entry.now ids.now skip message.now row.now)) }
{
    write_listing(text, entry, ids, skip, row)?;
    write_noting(text, entry, message, row)?;
    text.push(b'}')
}

fn write_entry(
    text: &mut Octets,
    entry: &Entry,
    row: &EntryRow,
    later: &Later,
) -> Result<(), Memory>
    ensures { OnOk result (text.new
        ≡ text.old ++ compact_text (body_data entry.now row.now later.now entry.now.body)) }
{
    match &entry.body {
        EntryBody::Reference { name, target } => {
            write_reference(text, entry, name, target, row, later)
        }
        EntryBody::Annotation { ids, skip, message } => {
            write_annotation(text, entry, ids, *skip, message, row)
        }
    }
}

/// The line that tells an entry, as it was judged, with its line feed. Of an entry of a reference it says by which
/// later entries that is skipped and rescued.
#[tactic(auto, unfolding(crate::specs::Lines::entry_line))]
pub fn entry_line(
    alloc: Global,
    entry: &Entry,
    row: &EntryRow,
    later: &Later,
) -> Result<Octets, Memory>
    ensures { IfOk result (λ text. text ≡ entry_line entry.now row.now later.now) }
{
    let mut text = Octets::from_vec(Vec::with_capacity(alloc, LINE_ROOM)?);
    write_entry(&mut text, entry, row, later)?;
    text.push(b'\n')?;
    Ok(text)
}
