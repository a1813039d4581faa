//! The faults of policies as verdicts tell them.

ghost use Rattle.std.specs.Prelude.{◌≡◌, ◌++◌, IfOk, OnOk, codes, decimal};
ghost use Rattle.octets.specs.Escaped.{escaped};
ghost use Rattle.policy_epochs.specs.Telling.{fault_text, forest_text};

use crate::PolicyFault;
use itoa::Buffer;
use octets::{Memory, Octets, append_escaped};
use rule_delegations::AssembleFault;
use std::alloc::Global;

// Words, and a name as one word.
fn named(alloc: Global, words: &[u8], name: &[u8]) -> Result<Octets, Memory>
    ensures { IfOk result (λ text. text ≡ words.now ++ escaped name.now) }
{
    let mut text = Octets::from_slice(alloc, words)?;
    append_escaped(&mut text, name)?;
    Ok(text)
}

// Adds two numbers with words between them.
fn put_two(text: &mut Octets, first: u64, words: &[u8], second: u64) -> Result<(), Memory>
    ensures { OnOk result (text.new ≡ text.old ++ decimal first ++ words.now ++ decimal second) }
{
    let mut digits = Buffer::new();
    text.append(digits.format(first).as_bytes())?;
    text.append(words)?;
    text.append(digits.format(second).as_bytes())?;
    Ok(())
}

fn numbered(
    alloc: Global,
    words: &[u8],
    first: u64,
    between: &[u8],
    second: u64,
) -> Result<Octets, Memory>
    ensures { IfOk result (λ text. text ≡ words.now ++ decimal first ++ between.now ++ decimal second) }
{
    let mut text = Octets::from_slice(alloc, words)?;
    put_two(&mut text, first, between, second)?;
    Ok(text)
}

fn of_file(alloc: Global, file: &[u8], got: usize, need: u32) -> Result<Octets, Memory>
    ensures { IfOk result (λ text. text ≡ codes "file-threshold " ++ escaped file.now ++ codes " " ++ decimal got
        ++ codes " of " ++ decimal need) }
{
    let mut text = named(alloc, b"file-threshold ", file)?;
    text.append(b" ")?;
    put_two(&mut text, got as u64, b" of ", u64::from(need))?;
    Ok(text)
}

fn of_forest(alloc: Global, why: &AssembleFault) -> Result<Octets, Memory>
    ensures { IfOk result (λ text. text ≡ forest_text why.now) }
{
    match why {
        AssembleFault::DuplicateName { name } => named(alloc, b"duplicate-name ", name.as_slice()),
        AssembleFault::Unreachable { name } => named(alloc, b"unreachable ", name.as_slice()),
        AssembleFault::TooDeep { name } => named(alloc, b"too-deep ", name.as_slice()),
        AssembleFault::TooMany { .. } => Octets::from_slice(alloc, b"too-many"),
        AssembleFault::Memory => Octets::from_slice(alloc, b"memory"),
    }
}

impl PolicyFault {
    /// The fault as verdicts tell it, without a line's end.
    pub fn text(&self, alloc: Global) -> Result<Octets, Memory>
        ensures { IfOk result (λ text. text ≡ fault_text self.now) }
    {
        match self {
            PolicyFault::Unreadable => Octets::from_slice(alloc, b"unreadable"),
            PolicyFault::NoRoot => Octets::from_slice(alloc, b"no-root"),
            PolicyFault::BadFile { file } => named(alloc, b"bad-file ", file.as_slice()),
            PolicyFault::RootThreshold { got, need } => {
                numbered(
                    alloc,
                    b"root-threshold ",
                    *got as u64,
                    b" of ",
                    u64::from(*need),
                )
            }
            PolicyFault::Forest { why } => of_forest(alloc, why),
            PolicyFault::FileThreshold { file, got, need } => {
                of_file(alloc, file.as_slice(), *got, *need)
            }
            PolicyFault::Anchor => Octets::from_slice(alloc, b"anchor"),
            PolicyFault::RootVersion { old, new } => {
                numbered(alloc, b"root-version ", *old, b" ", *new)
            }
            PolicyFault::RootSuccession { got, need } => {
                numbered(
                    alloc,
                    b"root-succession ",
                    *got as u64,
                    b" of ",
                    u64::from(*need),
                )
            }
            PolicyFault::FileVersion { file } => named(alloc, b"file-version ", file.as_slice()),
            PolicyFault::FileDropped { file } => named(alloc, b"file-dropped ", file.as_slice()),
        }
    }
}
