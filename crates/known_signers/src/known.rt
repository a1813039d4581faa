//! What is known of who signed and of texts that were read, lent to whoever asks.

ghost use Rattle.std.specs.Prelude.{◌≡◌, true, IfOk, IsTrue};
ghost use Rattle.std.specs.Result.{result_ok};
ghost use Rattle.json_fields.specs.Json.{json_of};
ghost use Rattle.dsse_envelope.specs.Envelopes as envelopes;
ghost use Rattle.lms_keys.specs.Deciding.{is_good};
ghost use Rattle.root_metadata.specs.Roots as roots;
ghost use Rattle.rule_files.specs.Files as files;
ghost use Rattle.approvals.specs.Approvals.{lets_go};
ghost use Rattle.approvals.specs.Signers.{env_signers};

use crate::good::GoodSignature;
use crate::payloads::{Fields, let_go};
use crate::rows::Rows;
use crate::texts::{FromText, Texts};
use dsse_envelope::Envelope;
use git_object::{ObjectId, RefName};
use lms_keys::verify_any;
use octets::Memory;
use root_metadata::{KeyIds, Keys, Root};
use rule_files::RuleFile;
use std::alloc::Global;
use std::cell::Cell;

/// What is known of who signed which envelope, and of what texts of policies and approvals are read as. Each row is so
/// of its envelope and its keys, or of its text, wherever they stand, so it is good for each repository, each reference
/// and each policy: nothing of it is ever wrong, and it may be let go at any time. It is lent by `&`, and learns while
/// it is asked.
#[derive(Drop)]
pub struct KnownSigners {
    rows: Cell<Option<Rows>>,
    good: Cell<Option<GoodSignature>>,
    envelopes: Cell<Option<Texts<Envelope>>>,
    payloads: Cell<Option<Texts<Fields>>>,
    roots: Cell<Option<Texts<Root>>>,
    files: Cell<Option<Texts<RuleFile>>>,
}

// What a text is read as, by the texts that are kept.
fn read_by<T: FromText>(
    kept: &Cell<Option<Texts<T>>>,
    alloc: Global,
    text: &[u8],
) -> Result<Option<T>, Memory>
    ensures { IfOk result (λ found. found ≡ T.reading text.now) }
{
    let mut texts = match kept.take() {
        Some(texts) => texts,
        None => Texts::new(alloc),
    };
    let found = texts.read(alloc, text);
    kept.set(Some(texts));
    found
}

// Whether it is known that this signature of these bytes is good by the key.
fn is_known(last: &Option<GoodSignature>, public: &[u8], signed: &[u8], signature: &[u8]) -> bool
    ensures { IsTrue result → is_good public.now signed.now signature.now ≡ true }
{
    match last {
        Some(last) => last.is_same(public, signed, signature),
        None => false,
    }
}

impl KnownSigners {
    /// Nothing is known. It takes no memory.
    pub fn new() -> KnownSigners {
        KnownSigners {
            rows: Cell::new(None),
            good: Cell::new(None),
            envelopes: Cell::new(None),
            payloads: Cell::new(None),
            roots: Cell::new(None),
            files: Cell::new(None),
        }
    }

    /// The ids of those of the keys of which some signature of the envelope is, as a set, as `env_signers` answers
    /// them. Signatures are checked where this envelope was not asked for these keys before, or what was found was let
    /// go.
    pub fn signers(&self, alloc: Global, envelope: &Envelope, keys: &Keys) -> Result<KeyIds, Memory>
        ensures { IfOk result (λ ids. ids ≡ env_signers envelope.now keys.now) }
    {
        let mut rows = match self.rows.take() {
            Some(rows) => rows,
            None => Rows::new(alloc),
        };
        let found = rows.signers(alloc, envelope, keys);
        self.rows.set(Some(rows));
        found
    }

    /// The envelope that a text is, as `Envelope::read` answers it; None where it is refused. Here and in the three
    /// functions below a text that was read before is not read again, unless what was found was let go.
    pub fn envelope(&self, alloc: Global, text: &[u8]) -> Result<Option<Envelope>, Memory>
        ensures { IfOk result (λ found. found ≡ result_ok (envelopes.reading text.now)) }
    {
        read_by(&self.envelopes, alloc, text)
    }

    /// The root that a payload is, as `Root::read` answers it; None where it is refused.
    pub fn root(&self, alloc: Global, payload: &[u8]) -> Result<Option<Root>, Memory>
        ensures { IfOk result (λ found. found ≡ result_ok (roots.reading payload.now)) }
    {
        read_by(&self.roots, alloc, payload)
    }

    /// The rule file that a payload is, as `RuleFile::read` answers it; None where it is refused.
    pub fn rule_file(&self, alloc: Global, payload: &[u8]) -> Result<Option<RuleFile>, Memory>
        ensures { IfOk result (λ found. found ≡ result_ok (files.reading payload.now)) }
    {
        read_by(&self.files, alloc, payload)
    }

    /// Whether a payload is that of an approval that lets a reference go from a target to a tree.
    #[tactic(auto, using(crate::proofs::SameFields::same))]
    pub fn lets_go(
        &self,
        alloc: Global,
        payload: &[u8],
        name: &RefName,
        from: &ObjectId,
        tree: &ObjectId,
    ) -> Result<bool, Memory>
        ensures { IfOk result (λ is. is ≡ lets_go name.now from.now tree.now (json_of payload.now)) }
    {
        let fields = read_by(&self.payloads, alloc, payload)?;
        Ok(let_go(&fields, name, from, tree))
    }

    // Checks a signature, and keeps it where it is good. Where memory is wanting the last one stays.
    fn check(
        &self,
        alloc: Global,
        last: Option<GoodSignature>,
        public: &[u8],
        signed: &[u8],
        signature: &[u8],
    ) -> bool
        ensures { result ≡ is_good public.now signed.now signature.now }
    {
        if !verify_any(public, signed, signature) {
            self.good.set(last);
            return false;
        }
        match GoodSignature::of(alloc, public, signed, signature) {
            Ok(found) => self.good.set(Some(found)),
            Err(_) => self.good.set(last),
        }
        true
    }

    /// Whether it is a good signature of these bytes by a public key, as `verify_any` answers. The last one that was
    /// found good is not checked again.
    pub fn is_good(&self, alloc: Global, public: &[u8], signed: &[u8], signature: &[u8]) -> bool
        ensures { result ≡ is_good public.now signed.now signature.now }
    {
        let last = self.good.take();
        if is_known(&last, public, signed, signature) {
            self.good.set(last);
            return true;
        }
        self.check(alloc, last, public, signed, signature)
    }
}
