//! How an engine keeps an entry that is decided.

ghost use Rattle.std.specs.Prelude.{◌≡◌, ℕ, List, Some, None, if◌then◌else◌, OnOk, OnErr};
ghost use Rattle.std.specs.Str.{bytes_eq};
ghost use Rattle.git_object.specs.References.{attestations_name};
ghost use Rattle.recovery.specs.Lanes.{with_fix};
ghost use Rattle.judging.specs.Books.{HasLanes, place_of};
ghost use Rattle.judging.specs.Engines.{KeepsNothing, KeepsReference, opened_or};

use crate::book::Book;
use crate::deciding::Decision;
use crate::engine::Engine;
use git_object::{ObjectId, RefName};
use octets::Memory;

// The policy that was opened, or the one before.
fn open_policy<P: Drop>(policy: &mut Option<P>, opened: Option<P>)
    ensures { policy.new ≡ opened_or opened policy.old }
{
    match opened {
        Some(next) => *policy = Some(next),
        None => {}
    }
}

// Notes the target of an entry of the attestations' reference.
fn attest(attested: &mut Option<ObjectId>, name: &RefName, target: &ObjectId)
    ensures { attested.new ≡ (if bytes_eq name.now attestations_name then Some target.now else attested.old) }
{
    if name.is_attestations() {
        *attested = Some(*target);
    }
}

// Completes a recovery, where the entry does.
fn complete<F>(book: &mut Book<F>, name: &RefName, above: u64, number: u64, completes: bool)
    ensures { HasLanes (λ other lane. if bytes_eq name.now other then
        (if completes then with_fix above number lane else lane) else lane) book.old book.new }
{
    if completes {
        book.fix(name, above, number);
    }
}

/// Keeps an entry of a reference. After a refusal the engine stands for what it stood for.
pub fn keep_reference<P: Drop, F: Drop>(
    engine: &mut Engine<P, F>,
    id: &ObjectId,
    name: &RefName,
    target: &ObjectId,
    above: u64,
    completes: bool,
    found: Decision<P, F>,
) -> Result<(), Memory>
    requires { place_of engine.old.book id.now ≡ None }
    ensures kept { OnOk result (KeepsReference id.now name.now target.now above completes found engine.old engine.new) }
    ensures same { OnErr result (KeepsNothing engine.old engine.new) }
{
    let number = engine.book.len() + 1;
    let Decision {
        opened,
        fault,
        signers,
    } = found;
    engine.book.add_reference(id, name, target, fault)?;
    complete(&mut engine.book, name, above, number, completes);
    open_policy(&mut engine.policy, opened);
    attest(&mut engine.attested, name, target);
    engine.signers = signers;
    Ok(())
}
