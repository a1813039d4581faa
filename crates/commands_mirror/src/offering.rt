//! The command `mirror`.

ghost use Rattle.std.specs.Prelude.{◌≡◌, Some};
ghost use Rattle.octets.specs.Causes.{HasCause};
ghost use Rattle.worlds.specs.Counts.{Faults, IsCounted};
ghost use Rattle.commands_mirror.specs.Offering.{MirrorEnds, Tells, mirror_ending, refused_ending, stream_ending};
ghost use Rattle.commands_mirror.specs.Offering.{break_of, outcome_of, sink_failed};

use crate::offer_lines::print_offer;
use clone_stream::StreamFault;
use edge_io::{Failed, Sink, Source};
use git_object::ObjectId;
use keeper_api::Keeper;
use mirror::{MirrorFault, Offer, offer};
use std::alloc::Global;
use worlds::{Ending, Part, Refusal, print_break};

/// Why an offer has no answer.
#[derive(Clone, Copy, Debug, PartialEq, Eq)]
pub enum OfferFault {
    /// It is refused; where a log breaks, the line that says so was printed.
    Refused { fault: MirrorFault },
    /// What was to be printed could not be. Where the offer was answered, what it made of the store stands.
    SinkFailed,
}

fn refused(refusal: Refusal) -> Ending
    ensures { result ≡ Ending.Refused refusal }
{
    Ending::Refused { refusal }
}

fn failed(part: Part) -> Ending
    ensures { result ≡ Ending.Refused (Refusal.Fault part) }
{
    Ending::Refused {
        refusal: Refusal::Fault { part },
    }
}

// How the program ends where the source gave no stream.
fn stream_ending(fault: &StreamFault) -> Ending
    ensures { result ≡ stream_ending fault.now }
{
    match fault {
        StreamFault::SourceFailed => failed(Part::Source),
        StreamFault::KeeperFailed => failed(Part::Keeper),
        StreamFault::Memory => refused(Refusal::Memory),
        _ => refused(Refusal::Stream {
            number: fault.number(),
        }),
    }
}

fn refused_ending(fault: &MirrorFault) -> Ending
    ensures { result ≡ refused_ending fault.now }
{
    match fault {
        MirrorFault::Stream { fault } => stream_ending(fault),
        MirrorFault::BrokenKept { id: _ } => Ending::Broken,
        MirrorFault::BrokenOffered { id: _ } => Ending::Broken,
        MirrorFault::Failed => failed(Part::Keeper),
        MirrorFault::Memory => refused(Refusal::Memory),
    }
}

/// How the program ends: status 0 where the store goes on or is as it was offered, 1 where it was offered a shorter
/// log or another past.
pub fn mirror_ending(outcome: &Result<Offer, OfferFault>) -> Ending
    ensures { result ≡ mirror_ending outcome.now }
{
    match outcome {
        Ok(Offer::Taken { from: _, to: _ }) => Ending::Done,
        Ok(Offer::Same { count: _ }) => Ending::Done,
        Ok(
            Offer::Behind {
                kept: _,
                offered: _,
            },
        ) => Ending::Differs,
        Ok(
            Offer::Forked {
                number: _,
                kept: _,
                offered: _,
            },
        ) => Ending::Differs,
        Err(OfferFault::Refused { fault }) => refused_ending(fault),
        Err(OfferFault::SinkFailed) => failed(Part::Sink),
    }
}

// Says at which commit a log breaks.
fn tell_break<K: Sink>(sink: &mut K, fault: &MirrorFault, id: &ObjectId) -> OfferFault
    requires { break_of fault.now ≡ Some id.now }
    ensures tells { Tells (K.contents sink.old) (K.contents sink.new) fault.now result }
    ensures cause { HasCause sink_failed (K.faults sink.old) (K.faults sink.new) (outcome_of result) }
{
    match print_break(sink, id) {
        Ok(()) => OfferFault::Refused { fault: *fault },
        Err(Failed) => OfferFault::SinkFailed,
    }
}

// Says it where that is why the offer is refused.
fn tell<K: Sink>(sink: &mut K, fault: &MirrorFault) -> OfferFault
    ensures tells { Tells (K.contents sink.old) (K.contents sink.new) fault.now result }
    ensures cause { HasCause sink_failed (K.faults sink.old) (K.faults sink.new) (outcome_of result) }
{
    match fault {
        MirrorFault::Stream { fault: _ } => OfferFault::Refused { fault: *fault },
        MirrorFault::BrokenKept { id } => tell_break(sink, fault, id),
        MirrorFault::BrokenOffered { id } => tell_break(sink, fault, id),
        MirrorFault::Failed => OfferFault::Refused { fault: *fault },
        MirrorFault::Memory => OfferFault::Refused { fault: *fault },
    }
}

/// Offers the source's repository to the store, and prints what its log is to the kept one: `taken` and both lengths,
/// or `same` and the length, or `behind` and both lengths, or `forked`, the number and the ids of the first entries
/// that differ. Where a log breaks, the line that says so is printed.
pub fn mirror<S: Source, K: Sink, R: Keeper>(
    alloc: Global,
    source: &mut S,
    sink: &mut K,
    keeper: &mut R,
) -> Result<Offer, OfferFault>
    ensures ends { MirrorEnds R.Keeper (S.left source.old) (S.left source.new) keeper.old keeper.new
        (K.contents sink.old) (K.contents sink.new) result }
    ensures counted { (rest : Faults) → IsCounted (mirror_ending result)
        (record rest { source = S.faults source.old; sink = K.faults sink.old; keeper = R.faults keeper.old })
        (record rest { source = S.faults source.new; sink = K.faults sink.new; keeper = R.faults keeper.new }) }
{
    let found = match offer(alloc, source, keeper) {
        Ok(found) => found,
        Err(fault) => return Err(tell(sink, &fault)),
    };
    match print_offer(sink, &found) {
        Ok(()) => Ok(found),
        Err(Failed) => Err(OfferFault::SinkFailed),
    }
}
