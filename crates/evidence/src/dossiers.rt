//! Dossiers, read and written.

ghost use Rattle.std.specs.Prelude.{◌≡◌, ◌++◌, IfOk, IfErr, IsErrOf, OnOk};
ghost use Rattle.evidence.specs.Dossiers.{key_line, side_text};

use crate::dossier_faults::DossierFault;
use crate::dossier_parts::{END_LINE, HEADER, read_parts};
use itoa::Buffer;
use octets::{Memory, Octets};
use std::alloc::Global;

/// A public key of 56 bytes or of 60, and the bodies of two commits that its holder is said to have signed.
#[derive(Drop)]
pub struct Dossier {
    pub public: Octets,
    pub left: Octets,
    pub right: Octets,
}

// Adds the line of a key.
#[tactic(auto, unfolding(crate::specs::Dossiers::key_line))]
fn append_key(alloc: Global, text: &mut Octets, public: &[u8]) -> Result<(), Memory>
    ensures { OnOk result (text.new ≡ text.old ++ key_line public.now) }
{
    let digits = hex::encode(alloc, public)?;
    text.append(b"key ")?;
    text.append(digits.as_bytes())?;
    text.append(b"\n")
}

// Adds a word, the size of a body, and the body.
#[tactic(auto, unfolding(crate::specs::Dossiers::side_text))]
fn append_side(text: &mut Octets, word: &[u8], body: &[u8]) -> Result<(), Memory>
    ensures { OnOk result (text.new ≡ text.old ++ side_text word.now body.now) }
{
    let mut digits = Buffer::new();
    text.append(word)?;
    text.append(digits.format(body.len()).as_bytes())?;
    text.append(b"\n")?;
    text.append(body)?;
    text.append(b"\n")
}

impl Dossier {
    ghost use Rattle.std.specs.Prelude.{IfOk, IfErr, IsErrOf};
    ghost use Rattle.evidence.specs.Breaks.{IsBreakAs};
    ghost use Rattle.evidence.specs.Dossiers.{IsDossier, IsDossierText, IsSpelled};

    /// The dossier of a text: `gittuf-evidence 1`, `key` and the digits of the key, `left` and `right` each with the
    /// size of a body of at most 16 MiB and the body, and `end`, each line and each body ended by a line feed.
    /// `Malformed` has the offset of the first line that is not as wanted, or whose body is not: where it begins, or
    /// would. Memory is taken only for a dossier, so no other text is answered for want of it.
    pub fn read(alloc: Global, bytes: &[u8]) -> Result<Dossier, DossierFault>
        ensures found { IfOk result (λ dossier. IsDossierText dossier bytes.now) }
        ensures bad { IfErr result (IsBreakAs bytes.now) }
        ensures spelled { IsErrOf result DossierFault.Memory → IsSpelled bytes.now }
    {
        let (public, left, right) = match read_parts(bytes) {
            Ok(parts) => parts,
            Err(at) => return Err(DossierFault::Malformed { at }),
        };
        let public = Octets::from_slice(alloc, public.as_slice())?;
        let left = Octets::from_slice(alloc, left)?;
        let right = Octets::from_slice(alloc, right)?;
        Ok(Dossier {
            public,
            left,
            right,
        })
    }

    /// The one text of the dossier, whose key must have 56 bytes or 60 and whose bodies at most 16 MiB.
    pub fn write(&self, alloc: Global) -> Result<Octets, Memory>
        requires { IsDossier self.now }
        ensures { IfOk result (IsDossierText self.now) }
    {
        let mut text = Octets::from_slice(alloc, HEADER)?;
        append_key(alloc, &mut text, self.public.as_slice())?;
        append_side(&mut text, b"left ", self.left.as_slice())?;
        append_side(&mut text, b"right ", self.right.as_slice())?;
        text.append(END_LINE)?;
        Ok(text)
    }
}
