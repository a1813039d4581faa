//! Patterns and how they are read.

ghost use Rattle.std.specs.Prelude.{◌≡◌, ◌⊎◌, ◌&&◌, ◌||◌, ◌==◌, ◌<◌, IfOk, IfErr, Ok, Err, true, is_ok, length, drop};
ghost use Rattle.std.specs.List.{position};
ghost use Rattle.ref_patterns.specs.Globs.{matches};
ghost use Rattle.ref_patterns.specs.Patterns.{is_bracket, prefix, reading, same_space};
ghost use Rattle.ref_patterns.specs.declared.pattern.PatternFault.TheVariants as fault;

use crate::Space;
use crate::globs::glob_matches;
use crate::space::space_of;
use octets::{Memory, Octets};
use std::alloc::Global;
use std::marker::Model;

/// The most bytes of a pattern, its prefix included.
const LONGEST: usize = 512;

/// Why a text is no pattern.
#[derive(Clone, Copy, Debug, PartialEq, Eq, Drop)]
pub enum PatternFault {
    /// The text is wrong: 0 where no prefix stands in front; 512 where it is longer than 512 bytes; the prefix's
    /// length where nothing follows it; else the offset of the first `[` or `\`.
    BadPattern { at: usize },
    Memory,
}

impl From<Memory> for PatternFault {
    ghost from_gives = { λ _ e. e ≡ fault.Memory };

    fn from(_error: Memory) -> PatternFault {
        PatternFault::Memory
    }
}

/// A pattern: `git:` or `file:` and a glob of at least one byte, in which `*` stands for any run of bytes, `/` and
/// the empty one included, `?` for one byte, and every other byte for itself.
#[derive(Drop)]
pub struct Pattern {
    space: Space,
    glob: Octets,
}

impl Model for Pattern {
    ghost use Rattle.ref_patterns.specs.Patterns.{Parts};

    ghost Value = { Parts };

    ghost view = { λ p. record { space = p.space; glob = p.glob } };
}

// The offset of the first `[` or `\`.
fn first_bracket(glob: &[u8]) -> Option<usize>
    ensures { result ≡ position is_bracket glob.now }
{
    glob.iter().position(|byte| *byte == b'[' || *byte == b'\\')
}

// The space and the glob of a pattern's text.
fn split(text: &[u8]) -> Result<(Space, &[u8]), PatternFault>
    ensures ok { IfOk result (λ parts. reading text.now ≡ Ok (record { space = parts.0; glob = parts.1.now })) }
    ensures refused { IfErr result (λ e. reading text.now ≡ Err e) }
{
    let Some(space) = space_of(text) else {
        return Err(PatternFault::BadPattern { at: 0 });
    };
    if text.len() > LONGEST {
        return Err(PatternFault::BadPattern { at: LONGEST });
    }
    let start = space.prefix().len();
    let glob = after(text, start);
    if glob.is_empty() {
        return Err(PatternFault::BadPattern { at: start });
    }
    match first_bracket(glob) {
        Some(at) => Err(PatternFault::BadPattern { at: start + at }),
        None => Ok((space, glob)),
    }
}

// What stands behind so many bytes.
fn after(text: &[u8], len: usize) -> &[u8]
    ensures { result.now ≡ drop len text.now }
{
    text.get(len..).unwrap_or(&[])
}

/// Whether a text is a pattern. It takes no memory.
pub fn is_pattern(text: &[u8]) -> bool
    ensures { result ≡ is_ok (reading text.now) }
{
    match split(text) {
        Ok(_) => true,
        Err(_) => false,
    }
}

impl Pattern {
    /// The pattern that a text is. Memory is taken only for a pattern, so no other text is answered for want of it.
    pub fn read(alloc: Global, text: &[u8]) -> Result<Pattern, PatternFault>
        ensures ok { IfOk result (λ pattern. reading text.now ≡ Ok pattern) }
        ensures refused { IfErr result (λ e. ((e ≡ fault.Memory) × (is_ok (reading text.now) ≡ true))
            ⊎ (reading text.now ≡ Err e)) }
    {
        let (space, glob) = match split(text) {
            Ok(parts) => parts,
            Err(fault) => return Err(fault),
        };
        let glob = Octets::from_slice(alloc, glob)?;
        Ok(Pattern { space, glob })
    }

    /// The space that the pattern speaks of.
    pub fn space(&self) -> Space
        ensures { result ≡ self.now.space }
    {
        self.space
    }

    /// The glob, lent.
    pub fn glob(&self) -> &[u8]
        ensures { result.now ≡ self.now.glob }
    {
        self.glob.as_slice()
    }

    /// Whether the pattern speaks of a name: it is of the same space, and its glob matches the text. It takes no
    /// memory, and time in proportion to the product of the two lengths at most.
    pub fn matches(&self, space: Space, text: &[u8]) -> bool
        ensures { result ≡ (same_space self.now.space space && matches self.now.glob text.now) }
    {
        self.space.is(space) && glob_matches(self.glob.as_slice(), text)
    }
}
