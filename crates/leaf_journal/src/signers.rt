//! A signer over a key file.

ghost use Rattle.std.specs.Prelude.{◌≡◌, ◌+◌, ◌^◌, ◌∷◌, ◌↔◌, [], ℕ, List, length, IfOk, IfErr, OnErr, IsErrOf, Some};
ghost use Rattle.octets.specs.Causes.{HasCause};
ghost use Rattle.octets.specs.Content.{Told};
ghost use Rattle.edge_io.specs.Disk.{IsKept, Torn, Written};
ghost use Rattle.edge_io.specs.Moments.{LeavesOnly};
ghost use Rattle.lms_keys.specs.HssSecret.{Secret, height_of, public_bytes, signature_len};
ghost use Rattle.leaf_journal.specs.Faults.{load_failed, sign_failed};
ghost use Rattle.leaf_journal.specs.KeyFile.{IsKeyFile, KeepsUsed, UsedInAll, start_of};
ghost use Rattle.leaf_journal.specs.Loading.{WhyNotLoaded};
ghost use Rattle.leaf_journal.specs.Runs.{Marks, Opens, Releases, in_use};
ghost use Rattle.leaf_journal.specs.declared.faults.LoadFault.TheVariants as load_fault;
ghost use Rattle.leaf_journal.specs.declared.faults.SignFault.TheVariants as fault;

use crate::first_free::first_free;
use crate::headers::leaves_of;
use crate::leaf_writes::write_leaf;
use crate::loading::{make_key, read_head, read_marks};
use crate::{LoadFault, SignFault};
use edge_io::{Disk, Failed};
use lms_keys::SigningKey;
use std::alloc::Global;
use std::marker::Model;

/// A key and a mark for each of its leaves. A leaf that is marked signs no more.
#[derive(Drop)]
pub struct Signer {
    key: SigningKey,
    marks: Vec<u8>,
    // The place of the first leaf's byte in the file.
    start: u64,
}

impl Model for Signer {
    ghost use Rattle.leaf_journal.specs.Signing.{HasMarks, Signing};

    ghost Value = { Signing };

    ghost view = { λ s. record { secret = s.key; marks = s.marks.items } };

    ghost invariant = { λ s. HasMarks s.key s.marks.items s.start };
}

impl Signer {
    ghost use Rattle.leaf_journal.specs.Signing.{AllMarked, Covers, IsLeast, IsLoaded, Signs, marking};

    /// The public key: 56 bytes of one level (RFC 8554, section 5.3), or 60 of two (section 6.1).
    pub fn public_bytes(&self) -> &[u8]
        ensures { result.now ≡ public_bytes self.now.secret }
    {
        self.key.public_bytes()
    }

    /// The bytes of each of the key's signatures.
    pub fn signature_len(&self) -> usize
        ensures { result ≡ signature_len self.now.secret }
    {
        self.key.signature_len()
    }

    /// Reads the key file that a disk holds, and marks exactly the leaves that are used in it.
    ///
    /// With fewer than 64 bytes `WrongLength` comes; else `BadHeader` where the first bytes are the header of no key,
    /// 64 of one level and 72 of two, and then `WrongLength` where the length is not the header's and one for each
    /// leaf. `Memory` comes only for a key file. The disk is as it was. With two levels the tree of one key below is
    /// made, so that signing needs no memory.
    pub fn load<D: Disk>(alloc: Global, disk: &mut D) -> Result<Signer, LoadFault>
        ensures loaded { IfOk result (λ signer. (file : List ℕ) → D.seen disk.new ≡ Some file → IsLoaded file signer) }
        ensures covers { IfOk result (λ signer. (file : List ℕ) → D.seen disk.new ≡ Some file → Covers signer file) }
        ensures why { IfErr result (λ fault. (file : List ℕ) → D.seen disk.new ≡ Some file → WhyNotLoaded fault file) }
        ensures memory { IsErrOf result load_fault.Memory → (file : List ℕ) → D.seen disk.new ≡ Some file
            → (secret : Secret) × IsKeyFile file secret }
        ensures opened { IfOk result (λ signer. (file : List ℕ) → D.seen disk.new ≡ Some file
            → Opens (in_use D.Disk) disk.old disk.new signer.marks) }
        ensures kept { IsKept (D.seen disk.old) (D.seen disk.new) (D.may_leave disk.old) (D.may_leave disk.new) }
        ensures any_moment { LeavesOnly D.moment D.left_since disk.old disk.new (D.may_leave disk.old) }
        ensures cause { HasCause load_failed (D.faults disk.old) (D.faults disk.new) result }
    {
        let (mut i, mut seed) = ([0u8; 16], [0u8; 32]);
        let header = match read_head(disk, &mut i, &mut seed) {
            Ok(header) => header,
            Err(fault) => return Err(fault),
        };
        let start = header.start();
        let marks = match read_marks(alloc, disk, start, leaves_of(header.height())) {
            Ok(marks) => marks,
            Err(fault) => return Err(fault),
        };
        match make_key(alloc, &header, i, seed, marks.as_slice()) {
            Ok(key) => Ok(Signer { key, marks, start }),
            Err(_) => Err(LoadFault::Memory),
        }
    }

    /// Signs `message` with the first leaf that is not marked, and answers the leaf. The leaf is marked, its byte
    /// written and synced, and only then the signature is made. What is asked: the disk, where it tells its bytes,
    /// holds a key file of this key in which each used leaf is marked here, as after `load` and after each `sign`;
    /// and `out` has the signature's length.
    ///
    /// `Exhausted` comes exactly where every leaf is marked. After `Disk` the leaf stays marked, and its byte on the
    /// disk may be any; `out` is as it was. It takes no memory.
    pub fn sign<D: Disk>(
        &mut self,
        disk: &mut D,
        message: &[u8],
        out: &mut [u8],
    ) -> Result<u32, SignFault>
        requires room { length out.old ≡ signature_len self.old.secret }
        requires covers { (file : List ℕ) → D.seen disk.old ≡ Some file → Covers self.old file }
        ensures least { IfOk result (λ q. IsLeast self.old.marks q × (self.new ≡ marking self.old q)) }
        ensures used { IfOk result (UsedInAll (D.may_leave disk.new)) }
        ensures signed { IfOk result (λ q. Signs self.old.secret message.now q out.new) }
        ensures written { IfOk result (λ q. Told (Written (start_of self.old.secret.below + q) (1 ∷ []))
            (D.seen disk.old) (D.seen disk.new)) }
        ensures exhausted { IsErrOf result fault.Exhausted ↔ AllMarked self.old.marks }
        ensures untouched { IsErrOf result fault.Exhausted → (self.new ≡ self.old) × (disk.new ≡ disk.old) }
        ensures failed { IsErrOf result fault.Disk → (q : ℕ) × IsLeast self.old.marks q
            × (self.new ≡ marking self.old q) × Told (Torn (start_of self.old.secret.below + q) 1) (D.seen disk.old)
            (D.seen disk.new) }
        ensures silent { OnErr result (out.new ≡ out.old) }
        ensures covers { (file : List ℕ) → D.seen disk.new ≡ Some file → Covers self.new file }
        ensures key { self.new.secret ≡ self.old.secret }
        ensures any_moment { LeavesOnly D.moment D.left_since disk.old disk.new (KeepsUsed (D.may_leave disk.old)) }
        ensures released { IfOk result (λ q. (file : List ℕ) → D.seen disk.new ≡ Some file
            → Releases (in_use D.Disk) disk.old disk.new self.old.marks q) }
        ensures lost { IsErrOf result fault.Disk → (file : List ℕ) → D.seen disk.new ≡ Some file → (q : ℕ)
            × Marks (in_use D.Disk) disk.old disk.new self.old.marks q }
        ensures cause { HasCause sign_failed (D.faults disk.old) (D.faults disk.new) result }
    {
        let Some(place) = first_free(self.marks.as_slice()) else {
            return Err(SignFault::Exhausted);
        };
        self.marks[place] = 1;
        let leaf = place as u32;
        match write_leaf(disk, self.start, leaf) {
            Ok(()) => {}
            Err(Failed) => return Err(SignFault::Disk),
        }
        self.key.sign_at(leaf, message, out);
        Ok(leaf)
    }
}
