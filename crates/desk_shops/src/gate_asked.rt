//! A shop of a gate as what a desk asks.

ghost use Rattle.std.specs.Prelude.{◌≡◌};
ghost use Rattle.std.proofs.Common.{◌∙◌, sym};
ghost use Rattle.desk_shops.specs.GateCalls.{judged_by, text_or_reply};

use crate::{GateShop, Judged, TextFault, reply_of_text, stream_text};
use desk_core::GateReply;
use desk_turns::{DeskShop, Settled};
use git_object::{ObjectId, RefName};
use keeper_api::{Keeper, KeeperFault};
use octets::Octets;
use pushes::{Push, Reply};
use std::alloc::Global;
use verify_ref::RefVerdict;

// What is said of a reference where a verdict was given.
fn judged_by(verdict: Result<RefVerdict, KeeperFault>) -> Result<Judged, KeeperFault>
    ensures { result ≡ judged_by verdict }
{
    match verdict {
        Ok(verdict) => Ok(Judged::Verdict(verdict)),
        Err(fault) => Err(fault),
    }
}

// A text, or the reply where there is none.
fn text_or_reply(text: Result<Octets, TextFault>) -> Result<Octets, Reply>
    ensures { result ≡ text_or_reply text }
{
    match text {
        Ok(text) => Ok(text),
        Err(fault) => Err(reply_of_text(fault)),
    }
}

impl<R: Keeper> DeskShop for GateShop<R> {
    ghost use Rattle.std.specs.Option.{is_some};
    ghost use Rattle.desk_core.specs.States.{is_gate_fault};
    ghost use Rattle.desk_core.specs.declared.gate_replies.GateReply.TheVariants as gate_reply;
    ghost use Rattle.desk_shops.specs.Desks.{StreamsOf, last_told};
    ghost use Rattle.desk_shops.specs.GateCalls.{GateAnswers, GateJudges, gate_done};

    type Answer = GateReply;

    type Judged = Judged;

    ghost in_doubt = { λ s. is_some s.0.log.doubt };

    ghost told = { λ s. R.content s.1 };

    ghost is_done = { gate_done };

    ghost is_fault = { is_gate_fault };

    ghost plain = { λ reply. gate_reply.Desk reply };

    ghost answers = { λ s h push answer. GateAnswers R.Keeper s.1 s.0 h push answer };

    ghost streams = { λ s h result. StreamsOf R.Keeper s.1 h result };

    ghost judges = { λ s h name judged. GateJudges R.Keeper s.1 h name judged };

    fn settle(&mut self, alloc: Global) -> Settled {
        self.state.settle(alloc, &mut self.keeper)
    }

    fn tip(&self) -> (u64, ObjectId) {
        self.state.tip()
    }

    fn push(&mut self, alloc: Global, seat: u32, push: &Push) -> GateReply {
        self.state.step(alloc, &mut self.keeper, seat, push)
    }

    fn is_done(answer: &GateReply) -> bool {
        match answer {
            GateReply::Desk(Reply::Done { .. }) => true,
            GateReply::Desk(_) => false,
            GateReply::Denied { .. } => false,
        }
    }

    fn plain(reply: Reply) -> GateReply {
        GateReply::Desk(reply)
    }

    fn verdict(&mut self, alloc: Global, name: &RefName) -> Result<Judged, KeeperFault> {
        judged_by(self.state.verdict(alloc, &mut self.keeper, name))
    }

    fn stream(&mut self, alloc: Global) -> Result<Octets, Reply> {
        text_or_reply(stream_text(alloc, &mut self.keeper))
    }

    ghost one_log = { λ s a b is also. sym is.desk.log ∙ also.desk.log };

    ghost told_last = { λ s h is clear. last_told s.1 s.0.log h is.desk clear };
}
