//! The words of the program.

use crate::commands::{
    keyed, log_command, matches_of, policy_command, verdicts_command, would_command,
};
use clap::ArgMatches;
use command_words::{Store, WordsFault, read_count, read_key_ids, read_object_ids, store_at};
use git_object::{KeyId, LOG_NAME, ObjectId, RefFault, RefName};
use json_fields::read_hex;
use octets::{Items, Octets};
use root_metadata::{KeyIds, id_set};
use std::alloc::Global;
use would_be::Proposed;

/// The most ids of keys that are given.
const MOST_KEYS: usize = 64;

/// The most entries that an annotation lists.
const MOST_LISTED: usize = 256;

/// The greatest number of an entry.
const MOST_ENTRIES: u32 = 1_000_000;

/// What is asked for; `root` are the keys that the first policy must have.
#[derive(Drop)]
pub(crate) enum Asked {
    /// The entries from a number on.
    Log {
        root: Option<KeyIds>,
        first: u64,
    },
    /// The verdicts on references, any but the log's own; with none, on each that the log speaks of and each branch and
    /// tag that the store has.
    Verdicts {
        root: Option<KeyIds>,
        names: Items<RefName>,
    },
    /// What would be found of an entry, if these keys signed it now.
    Would {
        root: Option<KeyIds>,
        proposed: Proposed,
    },
    /// Which of these entries an annotation would skip, if this key signed it now.
    Skips {
        root: Option<KeyIds>,
        key: KeyId,
        ids: Items<ObjectId>,
    },
    /// The policy in force behind the log, or that by which the entry of a number is judged.
    Policy {
        root: Option<KeyIds>,
        at: Option<u64>,
    },
    /// The greatest leaf of a key that stands signed.
    Used {
        root: Option<KeyIds>,
        key: NamedKey,
    },
}

/// A key, by its id or by its public bytes.
#[derive(Drop)]
pub(crate) enum NamedKey {
    Id(KeyId),
    Public(Octets),
}

// The keys that a text lists, as a set.
fn keys_of(alloc: Global, text: &str) -> Result<KeyIds, WordsFault> {
    match read_key_ids(alloc, text, MOST_KEYS) {
        Ok(Some(ids)) => match id_set(alloc, ids.as_slice()) {
            Ok(set) => Ok(set),
            Err(_) => Err(WordsFault::Memory),
        },
        Ok(None) => Err(WordsFault::Outside),
        Err(_) => Err(WordsFault::Memory),
    }
}

// The keys that the first policy must have, if they are given.
fn root_in(alloc: Global, matches: &ArgMatches) -> Result<Option<KeyIds>, WordsFault> {
    let Some(text) = matches.get_str("root") else {
        return Ok(None);
    };
    let keys = keys_of(alloc, text)?;
    Ok(Some(keys))
}

// The value of an argument that is asked for.
fn value_of<'a>(matches: &'a ArgMatches, name: &str) -> Result<&'a str, WordsFault> {
    match matches.get_str(name) {
        Some(text) => Ok(text),
        None => Err(WordsFault::Outside),
    }
}

// The id that a word writes.
fn id_of(alloc: Global, text: &str) -> Result<ObjectId, WordsFault> {
    match read_object_ids(alloc, text, 1) {
        Ok(Some(ids)) => match ids.get(0) {
            Some(id) => Ok(*id),
            None => Err(WordsFault::Outside),
        },
        Ok(None) => Err(WordsFault::Outside),
        Err(_) => Err(WordsFault::Memory),
    }
}

// The number of an entry, if one is given.
fn number_in(matches: &ArgMatches, name: &str) -> Result<Option<u64>, WordsFault> {
    let Some(text) = matches.get_str(name) else {
        return Ok(None);
    };
    match read_count(text.as_bytes(), MOST_ENTRIES) {
        Some(number) => Ok(Some(u64::from(number))),
        None => Err(WordsFault::Outside),
    }
}

// The number from which on entries are told, 1 where none is given.
fn first_in(matches: &ArgMatches) -> Result<u64, WordsFault> {
    let number = number_in(matches, "from")?;
    Ok(number.unwrap_or(1))
}

// The reference of a word, any but the log's own.
fn name_of(alloc: Global, text: &str) -> Result<RefName, WordsFault> {
    if text.as_bytes() == LOG_NAME {
        return Err(WordsFault::Outside);
    }
    match RefName::read(alloc, text.as_bytes()) {
        Ok(name) => Ok(name),
        Err(RefFault::BadRef) => Err(WordsFault::Outside),
        Err(RefFault::Memory) => Err(WordsFault::Memory),
    }
}

fn names_in(alloc: Global, matches: &ArgMatches) -> Result<Items<RefName>, WordsFault> {
    let mut names = Items::new(alloc);
    let Some(texts) = matches.get_strs("ref") else {
        return Ok(names);
    };
    for text in texts {
        let name = name_of(alloc, text)?;
        if names.push(name).is_err() {
            return Err(WordsFault::Memory);
        }
    }
    Ok(names)
}

// The one key that a text names by its id.
fn one_key(text: &str) -> Result<KeyId, WordsFault> {
    match read_hex::<32>(text.as_bytes()) {
        Some(bytes) => Ok(KeyId(bytes)),
        None => Err(WordsFault::Outside),
    }
}

// The ids of entries that a text lists.
fn listed_in(alloc: Global, text: &str) -> Result<Items<ObjectId>, WordsFault> {
    match read_object_ids(alloc, text, MOST_LISTED) {
        Ok(Some(ids)) => Ok(ids),
        Ok(None) => Err(WordsFault::Outside),
        Err(_) => Err(WordsFault::Memory),
    }
}

// What would be found of an entry, or which entries an annotation would skip.
fn would_asked(alloc: Global, matches: &ArgMatches) -> Result<Asked, WordsFault> {
    let root = root_in(alloc, matches)?;
    match matches.get_str("annotate") {
        None => Ok(Asked::Would {
            root,
            proposed: proposed_in(alloc, matches)?,
        }),
        Some(word) => {
            if word != "skip" || matches.get_str("target").is_some() {
                return Err(WordsFault::Outside);
            }
            let key = one_key(value_of(matches, "key")?)?;
            let ids = listed_in(alloc, value_of(matches, "ref")?)?;
            Ok(Asked::Skips { root, key, ids })
        }
    }
}

fn proposed_in(alloc: Global, matches: &ArgMatches) -> Result<Proposed, WordsFault> {
    let name = name_of(alloc, value_of(matches, "ref")?)?;
    let target = id_of(alloc, value_of(matches, "target")?)?;
    let keys = keys_of(alloc, value_of(matches, "key")?)?;
    Ok(Proposed { name, target, keys })
}

// A policy in force, or what would be found of an entry that records another one, of which no key of an entry decides.
fn policy_asked(alloc: Global, matches: &ArgMatches) -> Result<Asked, WordsFault> {
    let root = root_in(alloc, matches)?;
    let at = number_in(matches, "at")?;
    let Some(text) = matches.get_str("against") else {
        return Ok(Asked::Policy { root, at });
    };
    if at.is_some() {
        return Err(WordsFault::Outside);
    }
    let target = id_of(alloc, text)?;
    let Ok(name) = RefName::of_policy(alloc) else {
        return Err(WordsFault::Memory);
    };
    let keys = KeyIds::new(alloc);
    Ok(Asked::Would {
        root,
        proposed: Proposed { name, target, keys },
    })
}

fn public_of(alloc: Global, bytes: &[u8]) -> Result<NamedKey, WordsFault> {
    match Octets::from_slice(alloc, bytes) {
        Ok(public) => Ok(NamedKey::Public(public)),
        Err(_) => Err(WordsFault::Memory),
    }
}

// The key that a word names: an id, or the 56 or 60 bytes of its public part, in hexadecimal.
fn key_of(alloc: Global, text: &str) -> Result<NamedKey, WordsFault> {
    match text.len() {
        112 => match read_hex::<56>(text.as_bytes()) {
            Some(bytes) => public_of(alloc, &bytes),
            None => Err(WordsFault::Outside),
        },
        120 => match read_hex::<60>(text.as_bytes()) {
            Some(bytes) => public_of(alloc, &bytes),
            None => Err(WordsFault::Outside),
        },
        _ => Ok(NamedKey::Id(one_key(text)?)),
    }
}

// What the words behind the store ask for.
fn read_asked(alloc: Global, first: &str, words: &[String]) -> Result<Asked, WordsFault> {
    if first == "log" {
        let matches = matches_of(log_command(alloc), words)?;
        return Ok(Asked::Log {
            root: root_in(alloc, &matches)?,
            first: first_in(&matches)?,
        });
    }
    if first == "verdicts" {
        let matches = matches_of(verdicts_command(alloc), words)?;
        return Ok(Asked::Verdicts {
            root: root_in(alloc, &matches)?,
            names: names_in(alloc, &matches)?,
        });
    }
    if first == "would" {
        let matches = matches_of(would_command(alloc), words)?;
        return would_asked(alloc, &matches);
    }
    if first == "policy" {
        let matches = matches_of(policy_command(alloc), words)?;
        return policy_asked(alloc, &matches);
    }
    if first == "used" {
        let matches = matches_of(keyed(alloc, "used"), words)?;
        return Ok(Asked::Used {
            root: root_in(alloc, &matches)?,
            key: key_of(alloc, value_of(&matches, "key")?)?,
        });
    }
    Err(WordsFault::Outside)
}

/// The store that the first word stands for, and what the others ask for.
pub(crate) fn read_words<'a>(
    alloc: Global,
    words: &'a [String],
) -> Result<(Store<'a>, Asked), WordsFault> {
    let Some((place, command)) = words.split_first() else {
        return Err(WordsFault::Outside);
    };
    let Some(store) = store_at(place.as_str()) else {
        return Err(WordsFault::Outside);
    };
    let Some((first, rest)) = command.split_first() else {
        return Err(WordsFault::Outside);
    };
    let asked = read_asked(alloc, first.as_str(), rest)?;
    Ok((store, asked))
}
