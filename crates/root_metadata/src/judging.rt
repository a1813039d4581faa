//! What is wrong with metadata as it is written, each by itself and without memory of its own.

ghost use Rattle.std.specs.Prelude.{◌≡◌, ◌==◌, ◌||◌, [], count_by, nat_lt, not};
ghost use Rattle.std.specs.List.{list_all, list_any, position};
ghost use Rattle.std.specs.Str.{bytes_eq};
ghost use Rattle.sha2.specs.Sha256.{sha256};
ghost use Rattle.root_metadata.specs.Lookups.{IsIndex, is_bad_beside, is_found};
ghost use Rattle.root_metadata.specs.Risings.{has_key};
ghost use Rattle.root_metadata.specs.Judged.{first_wrong, has_bad_threshold, has_few_ids, has_own_id, is_bad_person};
ghost use Rattle.root_metadata.specs.Judged.{is_key, is_name, is_name_byte, is_named, shares_key, too_many};

use crate::{KeyId, Keyed, Known, Person, RawKey, RawRole, Roster, key_id};
use json_fields::read_hex;
use octets::Octets;

/// The most keys, persons or rules of a file.
const MOST: usize = 1024;
/// The most bytes of a name.
const LONGEST_NAME: usize = 64;
/// The most keys of a person.
const MOST_IDS: usize = 16;

/// The count, where it is more than a file may have of keys, persons or rules: 1,024.
pub fn too_many(count: usize) -> Option<usize>
    ensures { result ≡ too_many count }
{
    if count > MOST {
        return Some(count);
    }
    None
}

// Whether the text is the id's, and so the hash of these bytes.
fn is_hash_of(id: &KeyId, public: &[u8]) -> bool
    ensures { result ≡ bytes_eq id.now (sha256 public.now) }
{
    let hash = key_id(public);
    id.key() == hash.key()
}

// Whether the key is of a kind that is known, and its public bytes are as many as that kind has.
fn is_key(key: &RawKey) -> bool
    ensures { result ≡ is_key key.now }
{
    if key.keytype.as_slice() == b"lms".as_slice() {
        return read_hex::<56>(key.public.as_slice()).is_some();
    }
    if key.keytype.as_slice() == b"hss".as_slice() {
        return read_hex::<60>(key.public.as_slice()).is_some();
    }
    false
}

// Whether the id is the hash of the public bytes.
fn has_own_id(key: &RawKey) -> bool
    ensures { result ≡ has_own_id key.now }
{
    if key.keytype.as_slice() == b"lms".as_slice() {
        return match read_hex::<56>(key.public.as_slice()) {
            Some(public) => is_hash_of(&key.id, &public),
            None => false,
        };
    }
    if key.keytype.as_slice() == b"hss".as_slice() {
        return match read_hex::<60>(key.public.as_slice()) {
            Some(public) => is_hash_of(&key.id, &public),
            None => false,
        };
    }
    false
}

/// The place of the first key that is none: of another kind than `lms` with 56 bytes and `hss` with 60.
pub fn bad_key(keys: &[RawKey]) -> Option<usize>
    ensures { result ≡ position (λ key. not (is_key key)) keys.now }
{
    keys.iter().position(|key| !is_key(key))
}

/// The place of the first key whose id is not the SHA-256 of its public bytes.
pub fn other_id(keys: &[RawKey]) -> Option<usize>
    ensures { result ≡ position (λ key. not (has_own_id key)) keys.now }
{
    keys.iter().position(|key| !has_own_id(key))
}

// Whether a person has the name.
fn has_name(persons: &[Person], name: &[u8]) -> bool
    ensures { result ≡ list_any (is_named name.now) persons.now }
{
    persons.iter().any(|person| person.name.as_slice() == name)
}

// Whether a listed text is one of the file.
fn is_found(known: &Known, schema: u32, text: &[u8]) -> bool
    ensures { result ≡ is_found known.now schema text.now }
{
    if schema != 1 {
        return known.names.has(text);
    }
    match read_hex::<32>(text) {
        Some(id) => known.ids.has(&id),
        None => false,
    }
}

// How many of the listed are of the file.
fn count_found(known: &Known, schema: u32, listed: &[Octets]) -> usize
    ensures { result ≡ count_by (is_found known.now schema) listed.now }
{
    listed
        .iter()
        .filter(|text| is_found(known, schema, text.as_slice()))
        .count()
}

// Whether a threshold is 0, or more than so many.
fn is_out_of_reach(threshold: u32, count: usize) -> bool
    ensures { result ≡ (threshold == 0 || nat_lt count threshold) }
{
    threshold == 0 || count < threshold as usize
}

/// Whether a role's threshold is 0, or more than those who are listed and are of the file.
pub fn has_bad_threshold(roster: &Roster, known: &Known, role: &RawRole) -> bool
    requires { IsIndex roster.now known.now }
    ensures { result ≡ has_bad_threshold roster.now role.now }
{
    let count = count_found(known, roster.schema, role.listed.as_slice());
    is_out_of_reach(role.threshold, count)
}

// Whether each byte may stand in a name.
fn are_name_bytes(text: &[u8]) -> bool
    ensures { result ≡ list_all is_name_byte text.now }
{
    text.iter().all(
        |byte| matches!(*byte, b'A'..=b'Z' | b'a'..=b'z' | b'0'..=b'9' | b'.' | b'_' | b'-'),
    )
}

/// Whether a text is 1 to 64 bytes of `A-Z a-z 0-9 . _ -`.
pub fn is_name(text: &[u8]) -> bool
    ensures { result ≡ is_name text.now }
{
    if text.is_empty() || text.len() > LONGEST_NAME {
        return false;
    }
    are_name_bytes(text)
}

// Whether a person has 1 to 16 keys.
fn has_few_ids(person: &Person) -> bool
    ensures { result ≡ has_few_ids person.now }
{
    !person.keyids.is_empty() && person.keyids.len() <= MOST_IDS
}

// Whether a key of the file has each id of the person.
fn are_listed(known: &Known, ids: &[KeyId]) -> bool
    ensures { result ≡ list_all (has_key (λ k. k) known.now.ids) ids.now }
{
    ids.iter().all(|id| known.ids.has(id.key()))
}

// Whether a person is wrong beside the earlier ones.
fn is_bad_beside(known: &Known, earlier: &[Person], person: &Person) -> bool
    ensures { result ≡ is_bad_beside known.now earlier.now person.now }
{
    if !is_name(person.name.as_slice()) {
        return true;
    }
    if has_name(earlier, person.name.as_slice()) {
        return true;
    }
    if !has_few_ids(person) {
        return true;
    }
    !are_listed(known, person.keyids.as_slice())
}

// Whether an earlier person has the id.
fn has_owner(earlier: &[Person], id: &[u8]) -> bool
    ensures { result ≡ list_any (λ other. has_key (λ k. k) other.keyids id.now) earlier.now }
{
    earlier.iter().any(|other| other.keyids.has(id))
}

// Whether an id of the person is an earlier person's.
fn shares_key(earlier: &[Person], person: &Person) -> bool
    ensures { result ≡ shares_key earlier.now person.now }
{
    let ids = person.keyids.as_slice();
    ids.iter().any(|id| has_owner(earlier, id.key()))
}

// The place of the first person who is wrong beside the earlier ones.
fn first_bad(known: &Known, persons: &[Person]) -> Option<usize>
    ensures { result ≡ first_wrong (is_bad_beside known.now) [] persons.now }
{
    let mut at = 0;
    'persons: for person in persons {
        let (earlier, _) = persons.split_at(at);
        if is_bad_beside(known, earlier, person) {
            return Some(at);
        }
        at += 1;
    }
    None
}

/// The place of the first person whose name is none or an earlier person's, who has not 1 to 16 distinct ids, or of
/// whom an id is that of no key of the file.
pub fn bad_person(roster: &Roster, known: &Known) -> Option<usize>
    requires { IsIndex roster.now known.now }
    ensures { result ≡ first_wrong (is_bad_person roster.now.keys) [] roster.now.persons }
{
    first_bad(known, roster.persons.as_slice())
}

/// The place of the first person of whom an id is an earlier person's.
pub fn shared_key(roster: &Roster) -> Option<usize>
    ensures { result ≡ first_wrong shares_key [] roster.now.persons }
{
    let persons = roster.persons.as_slice();
    let mut at = 0;
    'persons: for person in persons {
        let (earlier, _) = persons.split_at(at);
        if shares_key(earlier, person) {
            return Some(at);
        }
        at += 1;
    }
    None
}
