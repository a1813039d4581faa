//! Writing roots and rule files.

ghost use Rattle.std.specs.Prelude.{◌≡◌, IfOk, IsErrOf, Ok};
ghost use Rattle.root_metadata.specs.Roots as roots;
ghost use Rattle.rule_files.specs.Files as files;
ghost use Rattle.metadata_writing.specs.Texts.{HasFileTexts, HasRootTexts};
ghost use Rattle.metadata_writing.specs.Writable.{IsWritableFile, IsWritableRoot};
ghost use Rattle.metadata_writing.specs.Written.{file_text, root_text};

use crate::WriteFault;
use crate::metadata::{file_json, root_json};
use crate::same::Same;
use json_fields::write;
use octets::{Memory, Octets};
use root_metadata::{MetaFault, Root};
use rule_files::{RuleFault, RuleFile};
use std::alloc::Global;

/// The text of a root: compact JSON, the fields of each object in the order of their names' bytes. A root of schema 1
/// says neither its schema nor persons, and lists the ids of keys. `Unwritable` comes only where a name is not UTF-8.
pub fn root_text(alloc: Global, root: &Root) -> Result<Octets, WriteFault>
    ensures exact { IfOk result (λ text. text ≡ root_text root.now) }
    ensures unwritable { IsErrOf result WriteFault.Unwritable → HasRootTexts root.now → ⊥ }
{
    let value = match root_json(alloc, root) {
        Ok(value) => value,
        Err(fault) => return Err(fault),
    };
    match write(alloc, &value) {
        Ok(text) => Ok(text),
        Err(Memory) => Err(WriteFault::Memory),
    }
}

/// The text of a rule file, as a root's. `Unwritable` comes only where a name or a pattern is not UTF-8.
pub fn file_text(alloc: Global, file: &RuleFile) -> Result<Octets, WriteFault>
    ensures exact { IfOk result (λ text. text ≡ file_text file.now) }
    ensures unwritable { IsErrOf result WriteFault.Unwritable → HasFileTexts file.now → ⊥ }
{
    let value = match file_json(alloc, file) {
        Ok(value) => value,
        Err(fault) => return Err(fault),
    };
    match write(alloc, &value) {
        Ok(text) => Ok(text),
        Err(Memory) => Err(WriteFault::Memory),
    }
}

/// The text of a root, which `Root::read` reads as the root. `Unwritable` comes exactly where there is none: where a
/// name is not UTF-8, or a count, a key, a threshold or a person is one that a root may not have.
pub fn write_root(alloc: Global, root: &Root) -> Result<Octets, WriteFault>
    ensures exact { IfOk result (λ text. text ≡ root_text root.now) }
    ensures reads_back { IfOk result (λ text. roots.reading text ≡ Ok root.now) }
    ensures unwritable { IsErrOf result WriteFault.Unwritable → IsWritableRoot root.now → ⊥ }
{
    let text = match root_text(alloc, root) {
        Ok(text) => text,
        Err(fault) => return Err(fault),
    };
    let read = match Root::read(alloc, text.as_slice()) {
        Ok(read) => read,
        Err(MetaFault::Memory) => return Err(WriteFault::Memory),
        Err(_) => return Err(WriteFault::Unwritable),
    };
    if !read.is_same(root) {
        return Err(WriteFault::Unwritable);
    }
    Ok(text)
}

/// The text of a rule file, which `RuleFile::read` reads as the file. `Unwritable` comes exactly where there is none:
/// where a name or a pattern is not UTF-8, or something is what a rule file may not have.
pub fn write_rule_file(alloc: Global, file: &RuleFile) -> Result<Octets, WriteFault>
    ensures exact { IfOk result (λ text. text ≡ file_text file.now) }
    ensures reads_back { IfOk result (λ text. files.reading text ≡ Ok file.now) }
    ensures unwritable { IsErrOf result WriteFault.Unwritable → IsWritableFile file.now → ⊥ }
{
    let text = match file_text(alloc, file) {
        Ok(text) => text,
        Err(fault) => return Err(fault),
    };
    let read = match RuleFile::read(alloc, text.as_slice()) {
        Ok(read) => read,
        Err(RuleFault::Memory) => return Err(WriteFault::Memory),
        Err(_) => return Err(WriteFault::Unwritable),
    };
    if !read.is_same(file) {
        return Err(WriteFault::Unwritable);
    }
    Ok(text)
}
