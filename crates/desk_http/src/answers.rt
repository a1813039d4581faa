//! A desk as what connections ask.

ghost use Rattle.std.specs.Prelude.{◌≡◌, IfOk};
ghost use Rattle.worlds.specs.Breaks.{break_line};
ghost use Rattle.desk_http.specs.Answers.{judged_line};

use crate::{HttpDesk, HttpShop, Pushed, Serves};
use desk_shops::Judged;
use desk_turns::Seat;
use git_object::{ObjectId, RefName};
use octets::{Memory, Octets};
use pushes::Reply;
use std::alloc::Global;
use std::sync::Wait;

// The line that says that a log breaks at the commit of this id.
fn break_text(alloc: Global, id: &ObjectId) -> Result<Octets, Memory>
    ensures { IfOk result (λ text. text ≡ break_line id.now) }
{
    let mut text = Octets::from_slice(alloc, b"log-broken ")?;
    text.append(&id.to_hex())?;
    text.append(b"\n")?;
    Ok(text)
}

/// The line that `verify-ref` prints of what is said of a reference, with its line feed.
pub fn verdict_line(alloc: Global, name: &RefName, judged: &Judged) -> Result<Octets, Memory>
    ensures { IfOk result (λ text. text ≡ judged_line name.now judged.now) }
{
    match judged {
        Judged::Verdict(verdict) => verify_ref::text(alloc, name, verdict),
        Judged::LogBroken { id } => break_text(alloc, id),
    }
}

impl<S: HttpShop + Drop> Serves for HttpDesk<S> {
    ghost use Rattle.desk_http.specs.Answers.{AnswersPush, GivesLine, Streams, TellsTip};

    ghost turn = { λ d. d };

    ghost pushes = { λ d body old new pushed. AnswersPush S.is_legal S.stands S.told S.answers S.is_done S.is_fault
        S.plain S.pushed_as body pushed old new };

    ghost tells_tip = { λ d old new tip. TellsTip S.is_legal S.stands S.told tip old new };

    ghost judges = { λ d name old new line. GivesLine S.is_legal S.stands S.told S.judges name line old new };

    ghost streams = { λ d old new text. Streams S.is_legal S.stands S.told S.streams text old new };

    fn push<W: Wait>(&self, rt: &W, alloc: Global, seat: &mut Seat, text: Octets) -> Pushed {
        S::to_pushed(self.desk.push(rt, alloc, seat, text))
    }

    fn tip<W: Wait>(
        &self,
        rt: &W,
        alloc: Global,
        seat: &mut Seat,
    ) -> Result<(u64, ObjectId), Reply> {
        self.desk.tip(rt, alloc, seat)
    }

    fn verdict<W: Wait>(
        &self,
        rt: &W,
        alloc: Global,
        seat: &mut Seat,
        name: &RefName,
    ) -> Result<Octets, Reply> {
        let judged = match self.desk.verdict(rt, alloc, seat, name) {
            Ok(judged) => judged,
            Err(reply) => return Err(reply),
        };
        match verdict_line(alloc, name, &judged) {
            Ok(line) => Ok(line),
            Err(_) => Err(Reply::Memory),
        }
    }

    fn stream<W: Wait>(&self, rt: &W, alloc: Global, seat: &mut Seat) -> Result<Octets, Reply> {
        self.desk.stream(rt, alloc, seat)
    }
}
