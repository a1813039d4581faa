//! The command `evidence-make`.

ghost use Rattle.std.specs.Prelude.{◌≡◌, ◌≤◌, length, IfOk};
ghost use Rattle.octets.specs.Causes.{HasCause};
ghost use Rattle.git_object.specs.Repository.{largest_body};
ghost use Rattle.keeper_api.specs.Undisturbed.{Undisturbed};
ghost use Rattle.worlds.specs.Counts.{Faults, IsCounted};
ghost use Rattle.evidence.specs.Dossiers.{IsDossierText, IsPublic};
ghost use Rattle.commands_mirror.specs.Making.{BodiesEnd, BodyEnds, MakeEnds, dossier_of, make_ending, make_failed};

use edge_io::{Failed, Sink, write_all};
use evidence::Dossier;
use git_object::{Memory, Object, ObjectId, Octets};
use keeper_api::{Keeper, KeeperFault, load_object};
use std::alloc::Global;
use worlds::{Ending, Part, Refusal};

/// Why no dossier was printed.
#[derive(Clone, Copy, Debug, PartialEq, Eq)]
pub enum MakeFault {
    /// The store has no object of this id.
    NoObject { id: ObjectId },
    KeeperFailed,
    SinkFailed,
    Memory,
}

/// How the program ends.
pub fn make_ending(outcome: &Result<(), MakeFault>) -> Ending
    ensures { result ≡ make_ending outcome.now }
{
    match outcome {
        Ok(()) => Ending::Done,
        Err(MakeFault::NoObject { id }) => Ending::Refused {
            refusal: Refusal::Object { id: *id },
        },
        Err(MakeFault::KeeperFailed) => Ending::Refused {
            refusal: Refusal::Fault { part: Part::Keeper },
        },
        Err(MakeFault::SinkFailed) => Ending::Refused {
            refusal: Refusal::Fault { part: Part::Sink },
        },
        Err(MakeFault::Memory) => Ending::Refused {
            refusal: Refusal::Memory,
        },
    }
}

// The object of an id.
fn kept_object<R: Keeper>(alloc: Global, keeper: &mut R, id: &ObjectId) -> Result<Object, MakeFault>
    ensures ends { BodyEnds (R.content keeper.new) id.now result }
    ensures same { Undisturbed R.Keeper keeper.old keeper.new }
    ensures cause { HasCause make_failed (R.faults keeper.old) (R.faults keeper.new) result }
{
    match load_object(alloc, keeper, id) {
        Ok(Some(object)) => Ok(object),
        Ok(None) => Err(MakeFault::NoObject { id: *id }),
        Err(KeeperFault::Failed) => Err(MakeFault::KeeperFailed),
        Err(KeeperFault::Memory) => Err(MakeFault::Memory),
    }
}

// The objects of both ids.
fn both_objects<R: Keeper>(
    alloc: Global,
    keeper: &mut R,
    left: &ObjectId,
    right: &ObjectId,
) -> Result<(Object, Object), MakeFault>
    ensures ends { BodiesEnd (R.content keeper.new) left.now right.now result }
    ensures same { Undisturbed R.Keeper keeper.old keeper.new }
    ensures cause { HasCause make_failed (R.faults keeper.old) (R.faults keeper.new) result }
{
    let first = match kept_object(alloc, keeper, left) {
        Ok(object) => object,
        Err(fault) => return Err(fault),
    };
    match kept_object(alloc, keeper, right) {
        Ok(second) => Ok((first, second)),
        Err(fault) => Err(fault),
    }
}

// The text of the dossier of a key and two objects' bodies.
fn dossier_text(
    alloc: Global,
    public: &[u8],
    left: &Object,
    right: &Object,
) -> Result<Octets, Memory>
    requires public { IsPublic public.now }
    requires left { length left.now.body ≤ largest_body }
    requires right { length right.now.body ≤ largest_body }
    ensures { IfOk result (IsDossierText (dossier_of public.now left.now right.now)) }
{
    let dossier = Dossier {
        public: Octets::from_slice(alloc, public)?,
        left: Octets::from_slice(alloc, left.body())?,
        right: Octets::from_slice(alloc, right.body())?,
    };
    dossier.write(alloc)
}

/// Prints the dossier of a key of 56 bytes or of 60 and of the bodies of two objects of the store. The first of them
/// that is not there is named.
pub fn evidence_make<K: Sink, R: Keeper>(
    alloc: Global,
    public: &[u8],
    left: &ObjectId,
    right: &ObjectId,
    sink: &mut K,
    keeper: &mut R,
) -> Result<(), MakeFault>
    requires { IsPublic public.now }
    ensures ends { MakeEnds public.now left.now right.now (R.content keeper.new) (K.contents sink.old)
        (K.contents sink.new) result }
    ensures same { Undisturbed R.Keeper keeper.old keeper.new }
    ensures counted { (rest : Faults) → IsCounted (make_ending result)
        (record rest { sink = K.faults sink.old; keeper = R.faults keeper.old })
        (record rest { sink = K.faults sink.new; keeper = R.faults keeper.new }) }
{
    let (first, second) = match both_objects(alloc, keeper, left, right) {
        Ok(objects) => objects,
        Err(fault) => return Err(fault),
    };
    let Ok(text) = dossier_text(alloc, public, &first, &second) else {
        return Err(MakeFault::Memory);
    };
    match write_all(sink, text.as_slice()) {
        Ok(()) => Ok(()),
        Err(Failed) => Err(MakeFault::SinkFailed),
    }
}
