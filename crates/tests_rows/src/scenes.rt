//! A row: its store, its bytes and its key file, and the ways in which commands run over them.

use crate::conditions::{Conditions, Part};
use crate::outside::Seen;
use crate::questions::{Question, answer};
use crate::records::{Condition, Way};
use crate::runs::run_over;
use crate::words::{numbers_of, words_of};
use keeper_api::MemKeeper;
use octets::{Memory, Octets};
use std::alloc::Global;
use std::mem;

// So many calls of an object are let fail at most, one a run.
const CALLS: u64 = 100_000;

// The status of a run in which an object counted a fault.
const FAULT: u8 = 4;

/// What the commands of a row run over.
#[derive(Drop)]
pub struct Scene {
    name: Octets,
    bytes: Octets,
    key: Octets,
    sent: Octets,
    keeper: MemKeeper,
    conditions: Conditions,
}

// Adds what was seen, unless the last run ended in the same.
fn add(seen: &mut Vec<Seen>, one: Seen) -> Result<(), Memory> {
    let is_new = match seen.last() {
        Some(last) => *last != one,
        None => true,
    };
    if is_new {
        seen.push(one)?;
    }
    Ok(())
}

impl Scene {
    /// A row of this name with an empty store, no bytes, an empty key file, and the usual conditions.
    pub fn new(alloc: Global, name: &[u8]) -> Result<Scene, Memory> {
        Ok(Scene {
            name: Octets::from_slice(alloc, name)?,
            bytes: Octets::new(alloc),
            key: Octets::new(alloc),
            sent: Octets::new(alloc),
            keeper: MemKeeper::new(alloc),
            conditions: Conditions::usual(alloc)?,
        })
    }

    pub fn name(&self) -> &[u8] {
        self.name.as_slice()
    }

    /// What the key file holds.
    pub fn held(&self) -> &[u8] {
        self.key.as_slice()
    }

    /// What the last command over the row's store sent to a peer, behind its port.
    pub fn sent(&self) -> &[u8] {
        self.sent.as_slice()
    }

    pub fn add_bytes(&mut self, bytes: &[u8]) -> Result<(), Memory> {
        self.bytes.append(bytes)
    }

    pub fn set_bytes(&mut self, alloc: Global, bytes: &[u8]) -> Result<(), Memory> {
        self.bytes = Octets::from_slice(alloc, bytes)?;
        Ok(())
    }

    pub fn set_key(&mut self, alloc: Global, key: &[u8]) -> Result<(), Memory> {
        self.key = Octets::from_slice(alloc, key)?;
        Ok(())
    }

    /// Takes a condition of the next command. Answered is false where it has a word for a number that is none.
    pub fn set_condition(
        &mut self,
        alloc: Global,
        condition: Condition<'_>,
    ) -> Result<bool, Memory> {
        match condition {
            Condition::Room { part, bytes } => self.conditions.set_room(part, bytes),
            Condition::Failing { part, calls } => match numbers_of(alloc, calls)? {
                Some(calls) => self.conditions.set_calls(part, calls),
                None => return Ok(false),
            },
            Condition::Random { bytes } => {
                self.conditions
                    .set_random(Octets::from_slice(alloc, bytes)?);
            }
            Condition::Moments { moments } => match numbers_of(alloc, moments)? {
                Some(moments) => self.conditions.set_moments(moments),
                None => return Ok(false),
            },
            Condition::Answer { bytes } => {
                self.conditions
                    .set_answer(Octets::from_slice(alloc, bytes)?);
            }
        }
        Ok(true)
    }

    // The conditions of the next command, after which they are the usual ones again.
    fn take_conditions(&mut self, alloc: Global) -> Result<Conditions, Memory> {
        let usual = Conditions::usual(alloc)?;
        Ok(mem::replace(&mut self.conditions, usual))
    }

    // Runs over the row's store, and answers the status.
    fn over_store(
        self,
        alloc: Global,
        words: &[String],
        conditions: Conditions,
        seen: &mut Vec<Seen>,
    ) -> Result<(u8, Scene), Memory> {
        let Scene {
            name,
            bytes,
            key,
            sent: _,
            keeper,
            conditions: usual,
        } = self;
        let source = bytes.copy()?;
        let left = run_over(alloc, words, conditions, source, keeper, key.as_slice())?;
        let status = left.seen.status;
        add(seen, left.seen)?;
        let scene = Scene {
            name,
            bytes,
            key: left.key,
            sent: left.sent,
            keeper: left.keeper,
            conditions: usual,
        };
        Ok((status, scene))
    }

    // Runs over the row's store until no call of the object fails.
    fn over_failing(
        self,
        alloc: Global,
        words: &[String],
        part: Part,
        seen: &mut Vec<Seen>,
    ) -> Result<Scene, Memory> {
        let mut scene = self;
        for call in 1..CALLS {
            let mut conditions = Conditions::usual(alloc)?;
            conditions.set_calls(part, vec![in alloc; call]?);
            let (status, later) = scene.over_store(alloc, words, conditions, seen)?;
            scene = later;
            if status != FAULT {
                break;
            }
        }
        Ok(scene)
    }

    // Runs over an empty store and the first bytes, as many as there are up to this number, and answers the status.
    fn over_nothing(
        &self,
        alloc: Global,
        words: &[String],
        conditions: Conditions,
        len: usize,
        seen: &mut Vec<Seen>,
    ) -> Result<u8, Memory> {
        let bytes = self.bytes.as_slice();
        let (front, _) = bytes.split_at(len.min(bytes.len()));
        let source = Octets::from_slice(alloc, front)?;
        let keeper = MemKeeper::new(alloc);
        let left = run_over(
            alloc,
            words,
            conditions,
            source,
            keeper,
            self.key.as_slice(),
        )?;
        let status = left.seen.status;
        add(seen, left.seen)?;
        Ok(status)
    }

    fn over_fronts(
        &self,
        alloc: Global,
        words: &[String],
        seen: &mut Vec<Seen>,
    ) -> Result<(), Memory> {
        for len in 0..self.bytes.len() {
            self.over_nothing(alloc, words, Conditions::usual(alloc)?, len, seen)?;
        }
        Ok(())
    }

    fn over_failing_sources(
        &self,
        alloc: Global,
        words: &[String],
        seen: &mut Vec<Seen>,
    ) -> Result<(), Memory> {
        for call in 1..CALLS {
            let mut conditions = Conditions::usual(alloc)?;
            conditions.set_calls(Part::Source, vec![in alloc; call]?);
            if self.over_nothing(alloc, words, conditions, usize::MAX, seen)? != FAULT {
                break;
            }
        }
        Ok(())
    }

    /// Runs the command of the words in a line in one of the ways, and answers what is seen of each run that ended in
    /// something else than the run before it, and the row afterwards.
    pub fn run(self, alloc: Global, way: Way, line: &[u8]) -> Result<(Vec<Seen>, Scene), Memory> {
        let words = words_of(alloc, line)?;
        let mut seen = Vec::new(alloc);
        let mut scene = self;
        let conditions = scene.take_conditions(alloc)?;
        match way {
            Way::Once => {
                let (_, later) = scene.over_store(alloc, words.as_slice(), conditions, &mut seen)?;
                scene = later;
            }
            Way::Fronts => scene.over_fronts(alloc, words.as_slice(), &mut seen)?,
            Way::Failing(Part::Source) => {
                scene.over_failing_sources(alloc, words.as_slice(), &mut seen)?;
            }
            Way::Failing(part) => {
                scene = scene.over_failing(alloc, words.as_slice(), part, &mut seen)?;
            }
        }
        Ok((seen, scene))
    }

    /// The answer to a question over the row's store.
    pub fn ask(self, alloc: Global, question: Question<'_>) -> Result<(Octets, Scene), Memory> {
        let mut scene = self;
        let conditions = scene.take_conditions(alloc)?;
        scene.keeper = conditions.store(scene.keeper);
        let text = answer(alloc, question, scene.bytes.as_slice(), &mut scene.keeper)?;
        Ok((text, scene))
    }
}
