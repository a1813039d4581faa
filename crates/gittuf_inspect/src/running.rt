//! Telling what is asked for.

use crate::listing::all_names;
use crate::policies::tell_policy;
use crate::skipping::inspect_skips;
use crate::words::{Asked, NamedKey};
use account_lines::tell_used;
use accounts::{
    JudgedLog, LaterLog, fault_line, judge_before, judge_from, judge_log, later_line, tell_verdict,
    tell_would,
};
use edge_io::{Failed, Sink, write_all};
use entry_rules::Fault;
use git_object::{KeyId, RefName};
use keeper_api::{Keeper, KeeperFault};
use octets::Memory;
use root_metadata::{Key, KeyIds, key_id};
use rsl_chain::LogFault;
use std::alloc::Global;
use worlds::{Ending, Part, Refusal, print_break};
use would_be::Proposed;

pub(crate) fn refused(refusal: Refusal) -> Ending {
    Ending::Refused { refusal }
}

pub(crate) fn sink_failed() -> Ending {
    refused(Refusal::Fault { part: Part::Sink })
}

// How the program ends where the store answers no more.
fn keeper_stopped(fault: KeeperFault) -> Ending {
    match fault {
        KeeperFault::Failed => refused(Refusal::Fault { part: Part::Keeper }),
        KeeperFault::Memory => refused(Refusal::Memory),
    }
}

/// How the program ends where the log is refused. A break is told.
pub(crate) fn stopped<K: Sink>(fault: &LogFault, sink: &mut K) -> Ending {
    match fault {
        LogFault::Broken { id } => match print_break(sink, id) {
            Ok(()) => Ending::Broken,
            Err(Failed) => sink_failed(),
        },
        LogFault::Failed => keeper_stopped(KeeperFault::Failed),
        LogFault::Memory => keeper_stopped(KeeperFault::Memory),
    }
}

// Tells the entries that were judged, a line for each.
fn tell_entries<K: Sink, R: Keeper>(
    alloc: Global,
    judged: &LaterLog,
    sink: &mut K,
    keeper: &mut R,
) -> Ending {
    for place in 0..judged.len() {
        let number = place as u64 + 1;
        if number < judged.first() {
            continue;
        }
        let line = match later_line(alloc, keeper, judged, number) {
            Ok(line) => line,
            Err(fault) => return stopped(&fault, sink),
        };
        match write_all(sink, line.as_slice()) {
            Ok(()) => {}
            Err(Failed) => return sink_failed(),
        }
    }
    Ending::Done
}

// Tells the verdicts on these names, a line for each.
fn tell_names<K: Sink, R: Keeper>(
    alloc: Global,
    names: &[RefName],
    judged: &JudgedLog,
    sink: &mut K,
    keeper: &mut R,
) -> Ending {
    let mut differs = false;
    for name in names {
        let told = match tell_verdict(alloc, keeper, judged, name) {
            Ok(told) => told,
            Err(fault) => return keeper_stopped(fault),
        };
        match write_all(sink, told.line.as_slice()) {
            Ok(()) => {}
            Err(Failed) => return sink_failed(),
        }
        if !told.accepted {
            differs = true;
        }
    }
    if differs {
        Ending::Differs
    } else {
        Ending::Done
    }
}

// Tells the verdicts on each name that the log speaks of, and each branch and tag of the store.
fn tell_all_names<K: Sink, R: Keeper>(
    alloc: Global,
    judged: &JudgedLog,
    sink: &mut K,
    keeper: &mut R,
) -> Ending {
    match all_names(alloc, judged, keeper) {
        Ok(names) => tell_names(alloc, names.as_slice(), judged, sink, keeper),
        Err(fault) => keeper_stopped(fault),
    }
}

// Tells faults of an entry of a number, a line for each.
fn tell_faults<K: Sink>(
    alloc: Global,
    name: &RefName,
    number: u64,
    faults: &[Fault],
    sink: &mut K,
) -> Ending {
    let mut ending = Ending::Done;
    for fault in faults {
        let Ok(line) = fault_line(alloc, name, number, fault) else {
            return refused(Refusal::Memory);
        };
        match write_all(sink, line.as_slice()) {
            Ok(()) => {}
            Err(Failed) => return sink_failed(),
        }
        ending = Ending::Differs;
    }
    ending
}

// Tells what would be found of an entry behind the log: the entry, and each of its faults.
fn tell_proposed<K: Sink, R: Keeper>(
    alloc: Global,
    root: &Option<KeyIds>,
    proposed: &Proposed,
    judged: &JudgedLog,
    sink: &mut K,
    keeper: &mut R,
) -> Ending {
    let told = match tell_would(alloc, keeper, root, judged, proposed) {
        Ok(told) => told,
        Err(fault) => return keeper_stopped(fault),
    };
    match write_all(sink, told.line.as_slice()) {
        Ok(()) => {}
        Err(Failed) => return sink_failed(),
    }
    let faults = told.found.faults.as_slice();
    tell_faults(alloc, &proposed.name, told.number, faults, sink)
}

// Two of the same keys, one of them for judging.
fn copied(root: &Option<KeyIds>) -> Result<Option<KeyIds>, Memory> {
    match root {
        Some(keys) => Ok(Some(keys.copy()?)),
        None => Ok(None),
    }
}

// Judges the log, and tells what would be found of an entry behind it.
fn propose<K: Sink, R: Keeper>(
    alloc: Global,
    root: Option<KeyIds>,
    proposed: &Proposed,
    sink: &mut K,
    keeper: &mut R,
) -> Ending {
    let Ok(anchor) = copied(&root) else {
        return refused(Refusal::Memory);
    };
    match judge_log(alloc, keeper, anchor) {
        Ok(judged) => tell_proposed(alloc, &root, proposed, &judged, sink, keeper),
        Err(fault) => stopped(&fault, sink),
    }
}

// Judges the log, and tells the verdicts on these names, or with none on all.
fn inspect_names<K: Sink, R: Keeper>(
    alloc: Global,
    root: Option<KeyIds>,
    names: &[RefName],
    sink: &mut K,
    keeper: &mut R,
) -> Ending {
    match judge_log(alloc, keeper, root) {
        Ok(judged) => {
            if names.is_empty() {
                tell_all_names(alloc, &judged, sink, keeper)
            } else {
                tell_names(alloc, names, &judged, sink, keeper)
            }
        }
        Err(fault) => stopped(&fault, sink),
    }
}

// Tells the greatest leaf of a key of these public bytes that stands signed in the log.
fn tell_leaf<K: Sink, R: Keeper>(
    alloc: Global,
    id: &KeyId,
    public: &[u8],
    sink: &mut K,
    keeper: &mut R,
) -> Ending {
    let line = match tell_used(alloc, keeper, id, public) {
        Ok(line) => line,
        Err(fault) => return stopped(&fault, sink),
    };
    match write_all(sink, line.as_slice()) {
        Ok(()) => Ending::Done,
        Err(Failed) => sink_failed(),
    }
}

// The public bytes of the key of an id among those of the policy in force; none where it has no such key.
fn public_in<'j>(judged: &'j JudgedLog, id: &KeyId) -> &'j [u8] {
    let Some(policy) = judged.policy() else {
        return &[];
    };
    let keys: &[Key] = policy.keys.as_slice();
    match keys.iter().find(|key| key.id.as_bytes() == id.as_bytes()) {
        Some(key) => key.public.as_slice(),
        None => &[],
    }
}

// Tells the greatest leaf of a key that stands signed in the log; a key of an id is that of the policy in force.
fn inspect_leaf<K: Sink, R: Keeper>(
    alloc: Global,
    root: Option<KeyIds>,
    key: &NamedKey,
    sink: &mut K,
    keeper: &mut R,
) -> Ending {
    match key {
        NamedKey::Public(public) => {
            let public = public.as_slice();
            tell_leaf(alloc, &key_id(public), public, sink, keeper)
        }
        NamedKey::Id(id) => match judge_log(alloc, keeper, root) {
            Ok(judged) => tell_leaf(alloc, id, public_in(&judged, id), sink, keeper),
            Err(fault) => stopped(&fault, sink),
        },
    }
}

// Judges the entries before a number, or with none the whole log.
fn judge_to<R: Keeper>(
    alloc: Global,
    keeper: &mut R,
    root: Option<KeyIds>,
    at: Option<u64>,
) -> Result<JudgedLog, LogFault> {
    match at {
        Some(number) => judge_before(alloc, keeper, root, number),
        None => judge_log(alloc, keeper, root),
    }
}

/// Judges the log of the store's repository once, and tells what is asked for.
pub(crate) fn inspect<K: Sink, R: Keeper>(
    alloc: Global,
    asked: Asked,
    sink: &mut K,
    keeper: &mut R,
) -> Ending {
    match asked {
        Asked::Log { root, first } => match judge_from(alloc, keeper, root, first) {
            Ok(judged) => tell_entries(alloc, &judged, sink, keeper),
            Err(fault) => stopped(&fault, sink),
        },
        Asked::Verdicts { root, names } => {
            inspect_names(alloc, root, names.as_slice(), sink, keeper)
        }
        Asked::Would { root, proposed } => propose(alloc, root, &proposed, sink, keeper),
        Asked::Policy { root, at } => match judge_to(alloc, keeper, root, at) {
            Ok(judged) => tell_policy(alloc, &judged, sink),
            Err(fault) => stopped(&fault, sink),
        },
        Asked::Skips { root, key, ids } => {
            inspect_skips(alloc, root, &key, ids.as_slice(), sink, keeper)
        }
        Asked::Used { root, key } => inspect_leaf(alloc, root, &key, sink, keeper),
    }
}
