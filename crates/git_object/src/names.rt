//! Reference names.

ghost use Rattle.std.specs.Prelude.{◌≡◌, ◌≤◌, ◌↔◌, ◌==◌, ◌&&◌, ◌+◌, ◌<◌, slice_index, count_by, length, IfOk, IsErrOf};
ghost use Rattle.std.specs.Prelude.{IsTrue};
ghost use Rattle.std.specs.List.{list_all};
ghost use Rattle.std.specs.Str.{IsUtf8};
ghost use Rattle.git_object.specs.Names.{IsRefName, components, has_pair, is_component, is_plain, log_name};

use octets::{Copied, Memory, Octets};
use std::alloc::{AllocError, Global};
use std::marker::Model;
use std::str;

/// The bytes of the name of the reference that the log's tip stands at.
pub const LOG_NAME: &[u8] = b"refs/gittuf/reference-state-log";

/// Why a text is no reference name.
#[derive(Clone, Copy, Debug, PartialEq, Eq, Drop)]
pub enum RefFault {
    /// The text breaks a rule of the grammar.
    BadRef,
    Memory,
}

impl From<Memory> for RefFault {
    ghost use Rattle.git_object.specs.declared.names.RefFault.TheVariants as fault;

    ghost from_gives = { λ _ e. e ≡ fault.Memory };

    fn from(_error: Memory) -> RefFault {
        RefFault::Memory
    }
}

/// A reference name, equal and ordered by its bytes (git-check-ref-format, with bounds of this project).
#[derive(Debug, PartialEq, Eq, PartialOrd, Ord, Drop)]
pub struct RefName {
    text: Octets,
}

impl Model for RefName {
    ghost use Rattle.std.specs.Prelude.{ℕ, List};

    ghost Value = { List ℕ };

    ghost use Rattle.git_object.specs.Names.{IsRefName};

    ghost view = { λ n. n.text };

    ghost invariant = { λ n. IsRefName n.text };

    ghost inverse = { λ bytes. record { text = bytes } };
}

impl RefName {
    /// The name that a text is. It begins with `refs/`, is UTF-8, has at most 255 bytes and at most 16
    /// components between slashes; no component is empty, begins with `.` or ends in `.lock`; it holds
    /// no `..`, no `@{`, no byte below 33 or of value 127 and none of `~ ^ : ? * [ \`, and does not end in `.`.
    /// Memory is taken only for a name, so no other text is answered for want of it.
    pub fn read(alloc: Global, text: &[u8]) -> Result<RefName, RefFault>
        ensures found { IfOk result (λ name. name ≡ text.now) }
        ensures valid { IfOk result IsRefName }
        ensures bad { IsErrOf result RefFault.BadRef → IsRefName text.now → ⊥ }
        ensures named { IsErrOf result RefFault.Memory → IsRefName text.now }
    {
        if !is_ref_name(text) {
            return Err(RefFault::BadRef);
        }
        let text = Octets::from_slice(alloc, text)?;
        Ok(RefName { text })
    }

    /// The name of the reference that the log's tip stands at.
    pub fn of_log(alloc: Global) -> Result<RefName, Memory>
        ensures { IfOk result (λ name. name ≡ log_name) }
    {
        let text = Octets::from_slice(alloc, LOG_NAME)?;
        Ok(RefName { text })
    }

    /// The bytes of the name.
    pub fn text(&self) -> &[u8]
        ensures text { result.now ≡ self.now }
        ensures valid { IsRefName self.now }
    {
        self.text.as_slice()
    }
}

impl Copied for RefName {
    fn copied(&self) -> Result<RefName, Memory> {
        Ok(RefName {
            text: self.text.copy()?,
        })
    }
}

// Whether a part between slashes is well formed.
fn is_whole(part: &[u8]) -> bool
    ensures { result ≡ is_component part.now }
{
    !part.is_empty() && !part.starts_with(b".") && !part.ends_with(b".lock")
}

fn are_whole(text: &[u8]) -> bool
    ensures { result ≡ list_all is_component (components text.now) }
{
    text.split(|byte| *byte == b'/').all(|part| is_whole(part))
}

fn slashes(text: &[u8]) -> usize
    ensures { result ≡ count_by (λ b. b == 47) text.now }
{
    text.iter().filter(|byte| **byte == b'/').count()
}

fn are_few(text: &[u8]) -> bool
    ensures { IsTrue result ↔ (length (components text.now) ≤ 16) }
{
    slashes(text) < 16
}

fn are_plain(text: &[u8]) -> bool
    ensures { result ≡ list_all is_plain text.now }
{
    text.iter().all(|byte| *byte >= 33
        && *byte != 127
        && !matches!(*byte, b'~' | b'^' | b':' | b'?' | b'*' | b'[' | b'\\'))
}

// Whether `first` stands at this place and `second` right after it.
fn stands_at(text: &[u8], at: usize, first: u8, second: u8) -> bool
    requires { at + 1 < length text.now }
    ensures { result ≡ (slice_index text.now at == first && slice_index text.now (at + 1) == second) }
{
    text[at] == first && text[at + 1] == second
}

// Whether `first` stands right before `second` somewhere.
fn holds_pair(text: &[u8], first: u8, second: u8) -> bool
    ensures { result ≡ has_pair first second text.now }
{
    'bytes: for end in 1..text.len() {
        if stands_at(text, end - 1, first, second) {
            return true;
        }
    }
    false
}

fn is_text(text: &[u8]) -> bool
    ensures { IsTrue result ↔ IsUtf8 text.now }
{
    str::from_utf8(text).is_ok()
}

/// Whether a text is a reference name.
fn is_ref_name(text: &[u8]) -> bool
    ensures { IsTrue result ↔ IsRefName text.now }
{
    if !text.starts_with(b"refs/") {
        return false;
    }
    if text.len() > 255 {
        return false;
    }
    if !is_text(text) {
        return false;
    }
    if !are_few(text) {
        return false;
    }
    if !are_whole(text) {
        return false;
    }
    if !are_plain(text) {
        return false;
    }
    if holds_pair(text, b'.', b'.') {
        return false;
    }
    if holds_pair(text, b'@', b'{') {
        return false;
    }
    if text.ends_with(b".") {
        return false;
    }
    true
}
