//! What texts of policies and approvals are read as.

ghost use Rattle.std.specs.Prelude.{◌≡◌, IfOk};
ghost use Rattle.std.specs.Result.{result_ok};
ghost use Rattle.dsse_envelope.specs.Envelopes as envelopes;
ghost use Rattle.root_metadata.specs.Roots as roots;
ghost use Rattle.rule_files.specs.Files as files;
ghost use Rattle.known_signers.specs.ApprovalFields.{fields_in};

use crate::copies::{copied_envelope, copied_file, copied_root};
use crate::payloads::{Fields, copied_fields, fields_in};
use crate::texts::FromText;
use dsse_envelope::{Envelope, EnvelopeFault};
use octets::Memory;
use root_metadata::{MetaFault, Root};
use rule_files::{RuleFault, RuleFile};
use std::alloc::Global;

impl FromText for Envelope {
    ghost reading = { λ text. result_ok (envelopes.reading text) };

    fn from_text(alloc: Global, text: &[u8]) -> Result<Option<Envelope>, Memory> {
        match Envelope::read(alloc, text) {
            Ok(envelope) => Ok(Some(envelope)),
            Err(EnvelopeFault::Memory) => Err(Memory),
            Err(_) => Ok(None),
        }
    }

    fn copied(&self) -> Result<Envelope, Memory> {
        copied_envelope(self)
    }
}

impl FromText for Root {
    ghost reading = { λ text. result_ok (roots.reading text) };

    fn from_text(alloc: Global, text: &[u8]) -> Result<Option<Root>, Memory> {
        match Root::read(alloc, text) {
            Ok(root) => Ok(Some(root)),
            Err(MetaFault::Memory) => Err(Memory),
            Err(_) => Ok(None),
        }
    }

    fn copied(&self) -> Result<Root, Memory> {
        copied_root(self)
    }
}

impl FromText for RuleFile {
    ghost reading = { λ text. result_ok (files.reading text) };

    fn from_text(alloc: Global, text: &[u8]) -> Result<Option<RuleFile>, Memory> {
        match RuleFile::read(alloc, text) {
            Ok(file) => Ok(Some(file)),
            Err(RuleFault::Memory) => Err(Memory),
            Err(_) => Ok(None),
        }
    }

    fn copied(&self) -> Result<RuleFile, Memory> {
        copied_file(self.name.allocator(), self)
    }
}

impl FromText for Fields {
    ghost reading = { fields_in };

    fn from_text(alloc: Global, text: &[u8]) -> Result<Option<Fields>, Memory> {
        fields_in(alloc, text)
    }

    fn copied(&self) -> Result<Fields, Memory> {
        copied_fields(self)
    }
}
