//! The draft of an entry.

ghost use Rattle.std.specs.Prelude.{◌≡◌, ◌<◌, ◌∷◌, ℕ, [], false, length, IfErr, IfOk, OnOk};
ghost use Rattle.octets.specs.Causes.{HasCause};
ghost use Rattle.octets.specs.Content.{with_front};
ghost use Rattle.text_reader.specs.Line.{has_byte};
ghost use Rattle.rsl_chain.specs.Chain.{last_of};
ghost use Rattle.rsl_chain.specs.Drafts.{IsBody, IsDraft};
ghost use Rattle.log_appending.specs.Entries.{author_of, draft_after};
ghost use Rattle.log_appending.specs.Drafting.{WhyUndrafted};
ghost use Rattle.log_appending.specs.Signing.{clock_failed};

use crate::AppendFault;
use edge_io::{Clock, Failed};
use git_object::{Ids, ObjectId};
use itoa::Buffer;
use octets::{Memory, Octets};
use rsl_chain::{Draft, EntryBody, Log};
use std::alloc::Global;

// Who writes an entry, and when.
#[tactic(auto, unfolding(crate::specs::Entries::author_of))]
fn author_text(alloc: Global, seconds: u64) -> Result<Octets, Memory>
    ensures text { IfOk result (λ text. text ≡ author_of seconds) }
    ensures plain { OnOk result (has_byte 10 (author_of seconds) ≡ false) }
{
    let mut digits = Buffer::new();
    let mut text = Octets::new(alloc);
    text.append(b"gittuf <gittuf@localhost> ")?;
    text.append(digits.format(seconds).as_bytes())?;
    text.append(b" +0000")?;
    Ok(text)
}

fn tip_of(ids: &Ids) -> Option<ObjectId>
    ensures { result ≡ last_of ids.now }
{
    ids.as_slice().last().copied()
}

/// The draft of the entry that comes after a log's last, at the time of the clock.
pub fn draft_entry<C: Clock>(
    alloc: Global,
    log: &Log,
    body: EntryBody,
    clock: &mut C,
) -> Result<Draft, AppendFault>
    requires short { length log.now.ids < 1000000 }
    requires body { IsBody body }
    ensures draft { IfOk result (λ draft. (seconds : ℕ)
        × (C.left clock.old ≡ with_front (seconds ∷ []) (C.left clock.new))
        × (draft ≡ draft_after log.now.ids seconds body)) }
    ensures valid { IfOk result IsDraft }
    ensures why { IfErr result (WhyUndrafted (C.left clock.old) (C.left clock.new)) }
    ensures clock { HasCause clock_failed (C.faults clock.old) (C.faults clock.new) result }
{
    let seconds = match clock.seconds() {
        Ok(seconds) => seconds,
        Err(Failed) => return Err(AppendFault::ClockFailed),
    };
    let Ok(author) = author_text(alloc, seconds) else {
        return Err(AppendFault::Memory);
    };
    Ok(Draft {
        parent: tip_of(&log.ids),
        author,
        number: log.ids.len() as u64 + 1,
        body,
    })
}
