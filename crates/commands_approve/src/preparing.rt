//! The approval that is to be signed, and its place: all that `approve` reads of a store behind the log.

ghost use Rattle.std.specs.Prelude.{◌≡◌, ◌≤◌, ◌+◌, Some, None, true, IfErr, IfOk, IsUtf8, OnOk};
ghost use Rattle.octets.specs.Causes.{HasCause};
ghost use Rattle.git_object.specs.Repository.{Repository, value_of};
ghost use Rattle.keeper_api.specs.Faults.{keeper_failed};
ghost use Rattle.keeper_api.specs.Undisturbed.{Undisturbed};
ghost use Rattle.rsl_chain.specs.Logs.{IsLogOf, fault_of_keeper};
ghost use Rattle.approvals.specs.Payloads.{payload_text};
ghost use Rattle.approvals.specs.Approvals.{is_approval};
ghost use Rattle.approvals.specs.Lookups.{approval_at};
ghost use Rattle.git_object.specs.References.{attestations_name};
ghost use Rattle.approvals.specs.Sites.{IsFitSite, IsSiteOf};
ghost use Rattle.commands_keys.specs.Seals.{IsSealable, id_text};
ghost use Rattle.commands_approve.specs.Ends.{ComesFrom, HasTree, not_failed};
ghost use Rattle.commands_approve.specs.Reads.{ReadsEntries, state_reads};
ghost use Rattle.commands_approve.specs.Wanted.{HasRoom, IsApprovalOf, IsPrepared, IsWanted, WhyNoPlace, WhyNoRoom};
ghost use Rattle.commands_approve.specs.Wanted.{WhyNotWanted, WhyUnprepared, approval_or, no_place};

use crate::ends::{Ends, NotWanted, read_ends};
use approvals::{AttestFault, Site, find_site, load_approval, payload_of};
use commands_keys::{fits_with, has_place, id_text};
use dsse_envelope::{Envelope, Signatures};
use git_object::{ObjectId, RefName};
use keeper_api::{Keeper, KeeperFault};
use leaf_journal::OpenKey;
use log_appending::OpenLog;
use octets::{Memory, Octets};
use rsl_chain::LogFault;
use std::alloc::Global;

// The type of the envelopes of approvals.
const PAYLOAD_TYPE: &str = "application/vnd.gittuf+json";

/// An approval that can be signed: from where it goes and to which tree, its envelope, the id of the key that is to
/// sign it as text, and its place among the attestations.
#[derive(Drop)]
pub struct Prepared {
    pub ends: Ends,
    pub envelope: Envelope,
    pub keyid: Octets,
    pub site: Site,
}

// An approval, and the value of the reference under which it was looked up.
#[derive(Drop)]
struct Found {
    envelope: Envelope,
    attestations: ObjectId,
}

fn no_memory() -> NotWanted
    ensures { result ≡ NotWanted.Log LogFault.Memory }
{
    NotWanted::Log {
        fault: LogFault::Memory,
    }
}

fn no_store(fault: KeeperFault) -> NotWanted
    ensures { result ≡ NotWanted.Log (fault_of_keeper fault) }
{
    match fault {
        KeeperFault::Failed => NotWanted::Log {
            fault: LogFault::Failed,
        },
        KeeperFault::Memory => no_memory(),
    }
}

// The value of the reference to the attestations: its id, or zeros where it is not there.
fn read_attestations<R: Keeper>(alloc: Global, keeper: &mut R) -> Result<ObjectId, KeeperFault>
    ensures value { IfOk result (λ id. (r : Repository) → R.content keeper.new ≡ Some r
        → id ≡ value_of r attestations_name) }
    ensures same { Undisturbed R.Keeper keeper.old keeper.new }
    ensures cause { HasCause keeper_failed (R.faults keeper.old) (R.faults keeper.new) result }
    ensures reads { R.reads keeper.new ≡ R.reads keeper.old }
{
    let name = RefName::of_attestations(alloc)?;
    match keeper.read_ref(alloc, &name) {
        Ok(found) => Ok(found.unwrap_or(ObjectId::zeros())),
        Err(fault) => Err(fault),
    }
}

// An approval without signatures.
fn unsigned(alloc: Global, name: &RefName, ends: &Ends) -> Result<Envelope, Memory>
    ensures envelope { IfOk result
        (λ envelope. envelope ≡ approval_or (payload_text name.now ends.now.from ends.now.tree) None) }
    ensures approves { IfOk result (λ envelope. is_approval name.now ends.now.from ends.now.tree envelope ≡ true) }
    ensures sealable { IfOk result IsSealable }
{
    Ok(Envelope {
        payload_type: Octets::from_slice(alloc, PAYLOAD_TYPE.as_bytes())?,
        payload: payload_of(alloc, name, &ends.from, &ends.tree)?,
        signatures: Signatures::new(alloc),
    })
}

// The approval among the attestations of a target, or one without signatures.
fn read_envelope<R: Keeper>(
    alloc: Global,
    attestations: &ObjectId,
    name: &RefName,
    ends: &Ends,
    keeper: &mut R,
) -> Result<Envelope, KeeperFault>
    ensures envelope { IfOk result (λ envelope. (r : Repository) → R.content keeper.new ≡ Some r
        → envelope ≡ approval_or (payload_text name.now ends.now.from ends.now.tree)
        (approval_at r attestations.now name.now ends.now.from ends.now.tree)) }
    ensures approves { IfOk result (λ envelope. is_approval name.now ends.now.from ends.now.tree envelope ≡ true) }
    ensures sealable { IfOk result IsSealable }
    ensures same { Undisturbed R.Keeper keeper.old keeper.new }
    ensures cause { HasCause keeper_failed (R.faults keeper.old) (R.faults keeper.new) result }
    ensures reads { R.reads keeper.new ≤ R.reads keeper.old + 28 }
{
    match load_approval(alloc, keeper, attestations, name, &ends.from, &ends.tree)? {
        Some(envelope) => Ok(envelope),
        None => {
            let envelope = unsigned(alloc, name, ends)?;
            Ok(envelope)
        }
    }
}

// The approval as it is kept under the attestations' value.
fn read_found<R: Keeper>(
    alloc: Global,
    name: &RefName,
    ends: &Ends,
    keeper: &mut R,
) -> Result<Found, KeeperFault>
    ensures is { IfOk result (λ found. (r : Repository) → R.content keeper.new ≡ Some r
        → IsApprovalOf r name.now ends.now found.envelope) }
    ensures value { IfOk result (λ found. (r : Repository) → R.content keeper.new ≡ Some r
        → found.attestations ≡ value_of r attestations_name) }
    ensures approves { IfOk result (λ found. is_approval name.now ends.now.from ends.now.tree found.envelope ≡ true) }
    ensures sealable { IfOk result (λ found. IsSealable found.envelope) }
    ensures same { Undisturbed R.Keeper keeper.old keeper.new }
    ensures cause { HasCause keeper_failed (R.faults keeper.old) (R.faults keeper.new) result }
    ensures reads { R.reads keeper.new ≤ R.reads keeper.old + 28 }
{
    let attestations = read_attestations(alloc, keeper)?;
    let envelope = read_envelope(alloc, &attestations, name, ends, keeper)?;
    Ok(Found {
        envelope,
        attestations,
    })
}

// The id of a key whose signature has room in an envelope.
fn find_room(alloc: Global, key: &OpenKey, envelope: &Envelope) -> Result<Octets, NotWanted>
    requires sealable { IsSealable envelope.now }
    ensures keyid { IfOk result (λ keyid. keyid ≡ id_text key.now.signer.secret) }
    ensures utf8 { IfOk result IsUtf8 }
    ensures room { IfOk result (λ keyid. HasRoom key.now.signer.secret envelope.now) }
    ensures why { IfErr result (WhyNoRoom key.now.signer.secret envelope.now) }
{
    let Ok(keyid) = id_text(alloc, key) else {
        return Err(no_memory());
    };
    if !has_place(keyid.as_slice(), envelope.signatures.as_slice()) {
        return Err(NotWanted::Full);
    }
    match fits_with(alloc, envelope, &keyid, key.signature_len()) {
        Ok(true) => Ok(keyid),
        Ok(false) => Err(NotWanted::TooLong),
        Err(Memory) => Err(no_memory()),
    }
}

fn no_place(fault: AttestFault) -> NotWanted
    ensures { result ≡ no_place fault }
{
    match fault {
        AttestFault::Unreadable { id } => NotWanted::Unreadable { id },
        AttestFault::Failed => NotWanted::Log {
            fault: LogFault::Failed,
        },
        AttestFault::Memory => no_memory(),
    }
}

// The place of an approval among the attestations of a target.
fn find_place<R: Keeper>(
    alloc: Global,
    attestations: &ObjectId,
    name: &RefName,
    ends: &Ends,
    keeper: &mut R,
) -> Result<Site, NotWanted>
    ensures fit { IfOk result IsFitSite }
    ensures site { IfOk result (λ site. (r : Repository) → R.content keeper.new ≡ Some r
        → IsSiteOf r attestations.now name.now ends.now.from ends.now.tree site) }
    ensures why { IfErr result (λ why. (r : Repository) → R.content keeper.new ≡ Some r
        → WhyNoPlace r attestations.now name.now ends.now why) }
    ensures same { Undisturbed R.Keeper keeper.old keeper.new }
    ensures cause { HasCause not_failed (R.faults keeper.old) (R.faults keeper.new) result }
    ensures reads { R.reads keeper.new ≤ R.reads keeper.old + 27 }
{
    match find_site(
        alloc,
        keeper,
        Some(attestations),
        name,
        &ends.from,
        &ends.tree,
    ) {
        Ok(site) => Ok(site),
        Err(fault) => Err(no_place(fault)),
    }
}

// The approval of a reference between these ends.
fn prepare_between<R: Keeper>(
    alloc: Global,
    name: &RefName,
    ends: Ends,
    key: &OpenKey,
    keeper: &mut R,
) -> Result<Prepared, NotWanted>
    ensures prepared { IfOk result (IsPrepared key.now.signer.secret name.now) }
    ensures ends { IfOk result (λ prepared. prepared.ends ≡ ends) }
    ensures is { IfOk result (λ prepared. (r : Repository) → R.content keeper.new ≡ Some r
        → IsApprovalOf r name.now ends prepared.envelope) }
    ensures site { IfOk result (λ prepared. (r : Repository) → R.content keeper.new ≡ Some r
        → IsSiteOf r (value_of r attestations_name) name.now ends.from ends.tree prepared.site) }
    ensures why { IfErr result (λ why. (r : Repository) → R.content keeper.new ≡ Some r
        → WhyUnprepared r name.now ends key.now.signer.secret why) }
    ensures same { Undisturbed R.Keeper keeper.old keeper.new }
    ensures cause { HasCause not_failed (R.faults keeper.old) (R.faults keeper.new) result }
    ensures reads { R.reads keeper.new ≤ R.reads keeper.old + 55 }
{
    let found = match read_found(alloc, name, &ends, keeper) {
        Ok(found) => found,
        Err(fault) => return Err(no_store(fault)),
    };
    let Found {
        envelope,
        attestations,
    } = found;
    let keyid = match find_room(alloc, key, &envelope) {
        Ok(keyid) => keyid,
        Err(why) => return Err(why),
    };
    match find_place(alloc, &attestations, name, &ends, keeper) {
        Ok(site) => Ok(Prepared {
            ends,
            envelope,
            keyid,
            site,
        }),
        Err(why) => Err(why),
    }
}

/// Reads the approval of a reference from where it stands behind an open log to the tree of a target, as it is kept
/// under the attestations' value, and its place there; the first refusal decides. An approval that is not there, or is
/// malformed, is one without signatures.
pub fn prepare<R: Keeper>(
    alloc: Global,
    name: &RefName,
    target: &ObjectId,
    opened: &OpenLog,
    keeper: &mut R,
) -> Result<Prepared, NotWanted>
    ensures prepared { IfOk result (IsPrepared opened.now.key.signer.secret name.now) }
    ensures wanted { IfOk result (λ prepared. (r : Repository) → R.content keeper.new ≡ Some r
        → IsWanted r opened.now.log.ids name.now target.now prepared.ends prepared.envelope) }
    ensures site { IfOk result (λ prepared. (r : Repository) → R.content keeper.new ≡ Some r
        → IsSiteOf r (value_of r attestations_name) name.now prepared.ends.from prepared.ends.tree prepared.site) }
    ensures why { IfErr result (λ why. (r : Repository) → R.content keeper.new ≡ Some r → IsLogOf r opened.now.log.ids
        → WhyNotWanted name.now target.now r opened.now.log.ids opened.now.key.signer.secret why) }
    ensures same { Undisturbed R.Keeper keeper.old keeper.new }
    ensures cause { HasCause not_failed (R.faults keeper.old) (R.faults keeper.new) result }
    ensures reads { OnOk result ((r : Repository) → R.content keeper.new ≡ Some r
        → ReadsEntries r opened.now.log.ids (state_reads r target.now + 55) (R.reads keeper.old) (R.reads keeper.new)) }
{
    let ends = match read_ends(alloc, name, target, &opened.log.ids, keeper) {
        Ok(ends) => ends,
        Err(why) => return Err(why),
    };
    match prepare_between(alloc, name, ends, &opened.key, keeper) {
        Ok(prepared) => Ok(prepared),
        Err(why) => Err(why),
    }
}
