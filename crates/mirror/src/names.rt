//! The references that a mirror keeps for itself.

ghost use Rattle.std.specs.Prelude.{◌≡◌, ◌≤◌, ◌++◌, ◌∷◌, [], codes, decimal, IfOk};
ghost use Rattle.hex.specs.Hex.{encode_lower};
ghost use Rattle.mirror.specs.Names.{fork_name, is_own};

use git_object::{Memory, ObjectId, RefFault, RefName};
use itoa::Buffer;
use octets::Octets;
use std::alloc::Global;

/// Whether a reference is one that the mirror keeps for itself, and that no offer brings: below `refs/mirror/`.
pub fn is_own(name: &RefName) -> bool
    ensures { result ≡ is_own name.now }
{
    name.text().starts_with(b"refs/mirror/")
}

// The text of the name of a fork.
fn fork_text(alloc: Global, number: u64, id: &ObjectId) -> Result<Octets, Memory>
    ensures { IfOk result (λ text. text ≡ fork_name number id.now) }
{
    let mut digits = Buffer::new();
    let mut text = Octets::from_slice(alloc, b"refs/mirror/fork/")?;
    text.append(digits.format(number).as_bytes())?;
    text.append(b"/")?;
    text.append(&id.to_hex())?;
    Ok(text)
}

/// The reference to an entry of this number and id that was offered in another past.
pub fn fork_name(alloc: Global, number: u64, id: &ObjectId) -> Result<RefName, Memory>
    requires { number ≤ 1000000 }
    ensures { IfOk result (λ name. name ≡ fork_name number id.now) }
{
    let _ = id.as_bytes();
    let text = fork_text(alloc, number, id)?;
    match RefName::read(alloc, text.as_slice()) {
        Ok(name) => Ok(name),
        Err(RefFault::BadRef) => unreachable!(),
        Err(RefFault::Memory) => Err(Memory),
    }
}
