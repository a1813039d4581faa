//! Telling a policy.

use crate::running::{refused, sink_failed};
use accounts::JudgedLog;
use edge_io::{Failed, Sink, write_all};
use metadata_writing::{WriteFault, file_text, root_text};
use octets::Octets;
use policy_epochs::Policy;
use rule_files::RuleFile;
use std::alloc::Global;
use worlds::{Ending, Part, Refusal};

// How the program ends where a file is not written.
fn unwritten(fault: WriteFault) -> Ending {
    match fault {
        WriteFault::Unwritable => refused(Refusal::Fault { part: Part::Keeper }),
        WriteFault::Memory => refused(Refusal::Memory),
    }
}

// Prints the text of a file as a line.
fn tell_text<K: Sink>(text: Result<Octets, WriteFault>, sink: &mut K) -> Result<(), Ending> {
    let mut line = match text {
        Ok(text) => text,
        Err(fault) => return Err(unwritten(fault)),
    };
    if line.append(b"\n").is_err() {
        return Err(refused(Refusal::Memory));
    }
    match write_all(sink, line.as_slice()) {
        Ok(()) => Ok(()),
        Err(Failed) => Err(sink_failed()),
    }
}

// Tells rule files, a line for each.
fn tell_files<K: Sink>(alloc: Global, files: &[RuleFile], sink: &mut K) -> Ending {
    for file in files {
        match tell_text(file_text(alloc, file), sink) {
            Ok(()) => {}
            Err(ending) => return ending,
        }
    }
    Ending::Done
}

fn tell_metadata<K: Sink>(alloc: Global, policy: &Policy, sink: &mut K) -> Ending {
    match tell_text(root_text(alloc, &policy.root), sink) {
        Ok(()) => tell_files(alloc, policy.rules.files(), sink),
        Err(ending) => ending,
    }
}

/// Tells the policy in force behind a judged log as its metadata, a line for each file, the root first and then the top
/// file of its rules; no line where none is in force.
pub(crate) fn tell_policy<K: Sink>(alloc: Global, judged: &JudgedLog, sink: &mut K) -> Ending {
    match judged.policy() {
        Some(policy) => tell_metadata(alloc, policy, sink),
        None => Ending::Done,
    }
}
