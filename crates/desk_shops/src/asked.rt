//! A shop as what a desk asks.

ghost use Rattle.std.specs.Prelude.{◌≡◌};
ghost use Rattle.std.proofs.Common.{◌∙◌, sym};
ghost use Rattle.desk_shops.specs.Desks.{broken_of, reply_of_text};

use crate::{Judged, LARGEST_TEXT, Shop, TextFault};
use desk_turns::{DeskShop, Settled};
use git_object::{ObjectId, RefName};
use keeper_api::{Keeper, KeeperFault};
use octets::Octets;
use pushes::{Push, Reply};
use rsl_chain::LogFault;
use std::alloc::Global;

// What a log that is broken, or was not read, comes to.
fn broken_of(fault: LogFault) -> Result<Judged, KeeperFault>
    ensures { result ≡ broken_of fault }
{
    match fault {
        LogFault::Broken { id } => Ok(Judged::LogBroken { id }),
        LogFault::Failed => Err(KeeperFault::Failed),
        LogFault::Memory => Err(KeeperFault::Memory),
    }
}

/// The reply where a repository has no text.
pub fn reply_of_text(fault: TextFault) -> Reply
    ensures { result ≡ reply_of_text fault }
{
    match fault {
        TextFault::Damaged { id } => Reply::Incomplete { id },
        TextFault::TooLarge => Reply::TooLarge {
            length: LARGEST_TEXT,
        },
        TextFault::KeeperFailed => Reply::Fault,
        TextFault::Memory => Reply::Memory,
    }
}

impl<R: Keeper> DeskShop for Shop<R> {
    ghost use Rattle.std.specs.Option.{is_some};
    ghost use Rattle.desk_turns.specs.States.{is_fault as reply_fault};
    ghost use Rattle.desk_shops.specs.Calls.{Replies};
    ghost use Rattle.desk_shops.specs.Desks.{Judges, StreamsOf, done_reply, last_told};

    type Answer = Reply;

    type Judged = Judged;

    ghost in_doubt = { λ s. is_some s.state.log.doubt };

    ghost told = { λ s. R.content s.keeper };

    ghost is_done = { done_reply };

    ghost is_fault = { reply_fault };

    ghost plain = { λ reply. reply };

    ghost answers = { λ s h push reply. Replies R.Keeper s.keeper h push reply };

    ghost streams = { λ s h result. StreamsOf R.Keeper s.keeper h result };

    ghost judges = { λ s h name judged. Judges R.Keeper s.keeper h name judged };

    #[tactic(auto, using(crate::proofs::Desks::settled_so))]
    fn settle(&mut self, alloc: Global) -> Settled {
        Shop::settle(self, alloc)
    }

    fn tip(&self) -> (u64, ObjectId) {
        Shop::tip(self)
    }

    #[tactic(auto, using(crate::specs::Desks::none_of, crate::specs::Desks::is_clear, crate::proofs::Desks::pushed_so))]
    fn push(&mut self, alloc: Global, seat: u32, push: &Push) -> Reply {
        Shop::push(self, alloc, seat, push)
    }

    fn is_done(answer: &Reply) -> bool {
        match answer {
            Reply::Done { .. } => true,
            Reply::Already { .. } => false,
            Reply::Stale { .. } => false,
            Reply::Malformed { .. } => false,
            Reply::Incomplete { .. } => false,
            Reply::TooLarge { .. } => false,
            Reply::Misnumbered { .. } => false,
            Reply::Moved { .. } => false,
            Reply::Fault => false,
            Reply::Memory => false,
        }
    }

    fn plain(reply: Reply) -> Reply {
        reply
    }

    #[tactic(auto, using(crate::specs::Desks::none_of, crate::proofs::Refusals::verdict_cause))]
    fn verdict(&mut self, alloc: Global, name: &RefName) -> Result<Judged, KeeperFault> {
        match Shop::verdict(self, alloc, name) {
            Ok(verdict) => Ok(Judged::Verdict(verdict)),
            Err(fault) => broken_of(fault),
        }
    }

    #[tactic(auto, using(crate::specs::Desks::none_of, crate::proofs::Refusals::stream_is, crate::proofs::Refusals::stream_cause))]
    fn stream(&mut self, alloc: Global) -> Result<Octets, Reply> {
        match Shop::stream(self, alloc) {
            Ok(text) => Ok(text),
            Err(fault) => Err(reply_of_text(fault)),
        }
    }

    ghost one_log = { λ s a b is also. sym is.desk.log ∙ also.desk.log };

    ghost told_last = { λ s h is clear. last_told s.keeper s.state.log h is.desk clear };
}
