//! Telling which entries an annotation would skip.

use crate::running::{sink_failed, stopped};
use accounts::{JudgedLog, judge_log, tell_skip};
use edge_io::{Failed, Sink, write_all};
use git_object::{KeyId, ObjectId};
use keeper_api::Keeper;
use root_metadata::KeyIds;
use std::alloc::Global;
use worlds::Ending;

// Tells of each of these entries whether the annotation would skip it, a line for each.
fn tell_skips<K: Sink, R: Keeper>(
    alloc: Global,
    judged: &JudgedLog,
    key: &KeyId,
    ids: &[ObjectId],
    sink: &mut K,
    keeper: &mut R,
) -> Ending {
    let mut ending = Ending::Done;
    for id in ids {
        let told = match tell_skip(alloc, keeper, judged, key, id) {
            Ok(told) => told,
            Err(fault) => return stopped(&fault, sink),
        };
        match write_all(sink, told.line.as_slice()) {
            Ok(()) => {}
            Err(Failed) => return sink_failed(),
        }
        if !told.skips {
            ending = Ending::Differs;
        }
    }
    ending
}

/// Judges the log, and tells of each of these entries whether an annotation that this key signs would skip it.
pub(crate) fn inspect_skips<K: Sink, R: Keeper>(
    alloc: Global,
    root: Option<KeyIds>,
    key: &KeyId,
    ids: &[ObjectId],
    sink: &mut K,
    keeper: &mut R,
) -> Ending {
    match judge_log(alloc, keeper, root) {
        Ok(judged) => tell_skips(alloc, &judged, key, ids, sink, keeper),
        Err(fault) => stopped(&fault, sink),
    }
}
