//! What a desk asks of the shop behind it.

ghost use Rattle.std.specs.Prelude.{◌≡◌, ◌<◌, ℕ, List, Bool, true, false, Option, Result, unwrap_or, IfOk};
ghost use Rattle.octets.specs.Causes.{HasCause};
ghost use Rattle.octets.specs.Content.{Stays};
ghost use Rattle.git_object.specs.Ids.{zeros};
ghost use Rattle.git_object.specs.Repository.{Repository};
ghost use Rattle.keeper_api.specs.Faults.{keeper_failed};
ghost use Rattle.pushes.specs.Pushes.{IsSpelled};
ghost use Rattle.pushes.specs.declared.pushed.Push.{Push};
ghost use Rattle.desk_turns.specs.Histories.{History, count};
ghost use Rattle.pushes.specs.Steps.{tip_of};
ghost use Rattle.pushes.specs.declared.replies.Reply.{Reply};
ghost use Rattle.desk_turns.specs.Settling.{is_unsettled, settled_as};
ghost use Rattle.desk_turns.specs.States.{is_fault as is_fault_reply};
ghost use Rattle.desk_turns.specs.Legal.{last, rows};
ghost use Rattle.desk_turns.specs.Shops.{StandsPushed, StandsSettled, answered};

use crate::{Chronicle, Settled};
use git_object::{ObjectId, RefName};
use keeper_api::KeeperFault;
use octets::Octets;
use pushes::{Push, Reply};
use std::alloc::Global;

/// A state behind a turn that a desk asks: a store and a log beside it, in which an entry may be in doubt.
pub trait DeskShop: Chronicle {
    /// What a push is answered.
    type Answer;

    /// What is answered of a reference.
    type Judged;

    /// Whether it is not known of an entry whether the store has it.
    ghost in_doubt: { Self → Bool };

    /// The repository that the store holds, where it tells it.
    ghost told: { Self → Option Repository };

    /// Whether an answer says that the push is done.
    ghost is_done: { Self.Answer → Bool };

    /// Whether an answer says that the store failed.
    ghost is_fault: { Self.Answer → Bool };

    /// The answer that a reply is.
    ghost plain: { Reply → Self.Answer };

    /// What an answer to a push says of the history before it. The shop is the one after it.
    ghost answers: { Self → History → Push → Self.Answer → Type 0 };

    /// What is said of a reference by a history. The shop is the one that said it.
    ghost judges: { Self → History → List ℕ → Self.Judged → Type 0 };

    /// What a text of the repository, or the reply why there is none, says of a history. The shop is the one that gave
    /// it.
    ghost streams: { Self → History → Result (List ℕ) Reply → Type 0 };

    /// Ends a doubt where the log's reference is at the last entry or at the one in doubt, which then is taken in, of
    /// nobody. `Moved` never comes over a store that tells what it holds.
    fn settle(&mut self, alloc: Global) -> Settled
        ensures stands { (h : History) → Self.stands self.old h
            → StandsSettled Self.stands in_doubt told self.new h result }
        ensures cause { HasCause is_unsettled (Self.counted self.old) (Self.counted self.new) (settled_as result) };

    /// How many entries there are, and the id of the last, or zeros. It takes no memory.
    fn tip(&self) -> (u64, ObjectId)
        ensures count { (h : History) → Self.stands self.now h → result.0 ≡ count h }
        ensures id { (h : History) → Self.stands self.now h → result.1 ≡ unwrap_or (tip_of (rows h)) zeros };

    /// Answers a push of a seat, and takes it where it is the next entry and nothing else is wrong with it. Where its
    /// commit fails it is in doubt.
    fn push(&mut self, alloc: Global, seat: u32, push: &Push) -> Self::Answer
        requires clear { in_doubt self.old ≡ false }
        requires spelled { IsSpelled push.now }
        requires seat { 0 < seat }
        ensures stands { (h : History) → Self.stands self.old h
            → StandsPushed Self.stands (is_done result) self.new h push.now.entry.id seat }
        ensures answers { (h : History) → Self.stands self.old h → answers self.new h push.now result }
        ensures clear { is_done result ≡ true → in_doubt self.new ≡ false }
        ensures cause { HasCause is_fault (Self.counted self.old) (Self.counted self.new) (answered result) };

    /// Whether an answer says that the push is done.
    fn is_done(answer: &Self::Answer) -> bool
        ensures { result ≡ is_done answer.now };

    /// The answer that a reply is.
    fn plain(reply: Reply) -> Self::Answer
        ensures { result ≡ plain reply };

    /// What is said of a reference by all entries and by its value in the store.
    fn verdict(&mut self, alloc: Global, name: &RefName) -> Result<Self::Judged, KeeperFault>
        requires clear { in_doubt self.old ≡ false }
        ensures stands { (h : History) → Self.stands self.old h → Self.stands self.new h }
        ensures judges { IfOk result (λ verdict. (h : History) → Self.stands self.old h
            → judges self.new h name.now verdict) }
        ensures cause { HasCause keeper_failed (Self.counted self.old) (Self.counted self.new) result };

    /// The whole repository that the store holds as one text, or why there is none.
    fn stream(&mut self, alloc: Global) -> Result<Octets, Reply>
        requires clear { in_doubt self.old ≡ false }
        ensures stands { (h : History) → Self.stands self.old h → Self.stands self.new h }
        ensures streams { (h : History) → Self.stands self.old h → streams self.new h result }
        ensures cause { HasCause is_fault_reply (Self.counted self.old) (Self.counted self.new) result };

    /// A shop has one log.
    ghost one_log: { (shop : Self) (a b : History) → Self.stands shop a → Self.stands shop b → rows a ≡ rows b };

    /// Where nothing is in doubt, what the store tells is the last repository.
    ghost told_last: { (shop : Self) (h : History) → Self.stands shop h → in_doubt shop ≡ false
        → Stays (last h) (told shop) };
}
