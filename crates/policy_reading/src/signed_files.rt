//! Files of a policy with the envelopes that they stand in.

ghost use Rattle.std.specs.Prelude.{◌≡◌, ◌++◌, ◌∷◌, [], IfOk, IfSome, OnOk};
ghost use Rattle.std.specs.Str.{bytes_eq};
ghost use Rattle.policy_reading.specs.Signed.{envelope_in, file_in, payload_type, root_in, signed_file, signed_root};

use dsse_envelope::Envelope;
use known_signers::KnownSigners;
use octets::{Items, Memory, Octets};
use root_metadata::Root;
use rule_files::RuleFile;
use std::alloc::Global;
use std::marker::Model;

/// The root and its envelope.
#[derive(Drop)]
pub struct SignedRoot {
    pub envelope: Envelope,
    pub root: Root,
}

/// A rule file and its envelope.
#[derive(Drop)]
pub struct SignedFile {
    pub envelope: Envelope,
    pub file: RuleFile,
}

/// Rule files and their envelopes, seen as their list.
#[derive(Drop)]
pub struct SignedFiles {
    files: Vec<SignedFile>,
}

impl Model for SignedFiles {
    ghost use Rattle.std.specs.Prelude.{List};
    ghost use Rattle.policy_reading.specs.declared.signed_files.SignedFile.{SignedFile};

    ghost Value = { List SignedFile };

    ghost view = { λ s. s.files.items };
}

impl SignedFiles {
    /// The empty list. It takes no memory.
    pub fn new(alloc: Global) -> SignedFiles
        ensures { result ≡ [] }
    {
        SignedFiles {
            files: Vec::new(alloc),
        }
    }

    /// Adds a file at the end.
    pub fn push(&mut self, file: SignedFile) -> Result<(), Memory>
        ensures { OnOk result (self.new ≡ self.old ++ file ∷ []) }
    {
        match self.files.push(file) {
            Ok(()) => Ok(()),
            Err(_) => Err(Memory),
        }
    }

    /// The files, lent.
    pub fn as_slice(&self) -> &[SignedFile]
        ensures { result.now ≡ self.now }
    {
        self.files.as_slice()
    }

    /// The files, moved.
    pub fn into_vec(self) -> Vec<SignedFile>
        ensures { result.items ≡ self }
    {
        self.files
    }
}

/// What is kept of a rule file beside its rules: its name, its version and its envelope.
#[derive(Drop)]
pub struct Sealed {
    pub name: Octets,
    pub version: u64,
    pub envelope: Envelope,
}

/// What is kept of rule files beside their rules.
pub type SealedFiles = Items<Sealed>;

// Whether the payload of an envelope is a policy's.
fn is_of_type(envelope: &Envelope) -> bool
    ensures { result ≡ bytes_eq envelope.now.payload_type payload_type }
{
    envelope.payload_type.as_slice() == b"application/vnd.gittuf+json".as_slice()
}

// The envelope that a text is.
#[tactic(auto, unfolding(crate::specs::Signed::envelope_in))]
fn envelope_in(alloc: Global, known: &KnownSigners, text: &[u8]) -> Result<Option<Envelope>, Memory>
    ensures { IfOk result (λ envelope. envelope ≡ envelope_in text.now) }
{
    match known.envelope(alloc, text)? {
        Some(envelope) => {
            if is_of_type(&envelope) {
                Ok(Some(envelope))
            } else {
                Ok(None)
            }
        }
        None => Ok(None),
    }
}

// The root that an envelope's payload is.
#[tactic(auto, unfolding(crate::specs::Signed::root_in))]
fn root_in(
    alloc: Global,
    known: &KnownSigners,
    envelope: Envelope,
) -> Result<Option<SignedRoot>, Memory>
    ensures { IfOk result (λ root. root ≡ root_in envelope) }
{
    match known.root(alloc, envelope.payload.as_slice())? {
        Some(root) => Ok(Some(SignedRoot { envelope, root })),
        None => Ok(None),
    }
}

// The rule file of this stem that an envelope's payload is.
#[tactic(auto, unfolding(crate::specs::Signed::file_in))]
fn file_in(
    alloc: Global,
    known: &KnownSigners,
    stem: &[u8],
    envelope: Envelope,
) -> Result<Option<SignedFile>, Memory>
    ensures read { IfOk result (λ file. file ≡ file_in stem.now envelope) }
    ensures named { IfOk result (λ file. IfSome file (λ signed. signed.file.name ≡ stem.now)) }
{
    match known.rule_file(alloc, envelope.payload.as_slice())? {
        Some(file) => {
            if file.name.as_slice() == stem {
                Ok(Some(SignedFile { envelope, file }))
            } else {
                Ok(None)
            }
        }
        None => Ok(None),
    }
}

/// The root that a text is, with its envelope; None where it is none.
pub fn signed_root(
    alloc: Global,
    known: &KnownSigners,
    text: &[u8],
) -> Result<Option<SignedRoot>, Memory>
    ensures { IfOk result (λ root. root ≡ signed_root text.now) }
{
    match envelope_in(alloc, known, text)? {
        None => Ok(None),
        Some(envelope) => root_in(alloc, known, envelope),
    }
}

/// The rule file of this stem that a text is, with its envelope; None where it is none.
pub fn signed_file(
    alloc: Global,
    known: &KnownSigners,
    stem: &[u8],
    text: &[u8],
) -> Result<Option<SignedFile>, Memory>
    ensures read { IfOk result (λ file. file ≡ signed_file stem.now text.now) }
    ensures named { IfOk result (λ file. IfSome file (λ signed. signed.file.name ≡ stem.now)) }
{
    match envelope_in(alloc, known, text)? {
        None => Ok(None),
        Some(envelope) => file_in(alloc, known, stem, envelope),
    }
}
