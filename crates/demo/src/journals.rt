//! Keys whose journals are in memory.

ghost use Rattle.std.specs.Prelude.{◌≡◌, ◌++◌, ◌+◌, ◌<◌, decimal, IfOk, OnOk};
ghost use Rattle.sha2.specs.Sha256.{sha256};
ghost use Rattle.lms_keys.specs.PublicKey.{key_bytes};
ghost use Rattle.lms_keys.specs.Secret.{public_key_of};
ghost use Rattle.demo.specs.Keys.{demo_key, signed_by};

use edge_io::MemDisk;
use itoa::Buffer;
use leaf_journal::{SignFault, Signer, create};
use lmots::OtsType;
use lms_keys::LmsType;
use octets::{Memory, Octets};
use sha2::{Digest, Sha256};
use std::alloc::Global;
use std::marker::Model;

// The bytes that are written to a journal: a key file of 1,024 leaves, and a byte for each leaf.
const ROOM: usize = 2112;

// The calls of its disk: to make the key file and to read it, and two for each leaf.
const CALLS: usize = 2064;

/// A key of 1,024 leaves and the disk in memory on which it marks them.
#[derive(Drop)]
pub struct Journal {
    signer: Signer,
    disk: MemDisk,
    used: u32,
}

impl Model for Journal {
    ghost use Rattle.demo.specs.Journals.{Journaled};

    ghost Value = { Journaled };

    ghost use Rattle.std.specs.Prelude.{Some};
    ghost use Rattle.edge_io.specs.Recorded.{seen_after};
    ghost use Rattle.demo.specs.Journals.{IsJournal};

    ghost view = { λ j. record { secret = j.signer.secret.top; used = j.used } };

    ghost invariant = { λ j. IsJournal j.signer (Some (seen_after j.disk.start j.disk.steps)) j.used };
}

// The SHA-256 of a text and a number in decimal.
fn digest_of(front: &[u8], number: u64) -> [u8; 32]
    ensures { result ≡ sha256 (front.now ++ decimal number) }
{
    let mut digits = Buffer::new();
    let mut hasher = Sha256::new();
    hasher.update(front);
    hasher.update(digits.format(number));
    hasher.finalize()
}

impl Journal {
    /// The key of a number, of which no leaf is used.
    pub fn make(alloc: Global, number: u64) -> Result<Journal, Memory>
        ensures { IfOk result (λ journal. journal ≡ record { secret = demo_key number; used = 0 }) }
    {
        let mut i = [0u8; 16];
        i.copy_from_slice(&digest_of(b"demo-i-", number)[..16]);
        let seed = digest_of(b"demo-seed-", number);
        let mut disk = MemDisk::new(Octets::new(alloc), ROOM, CALLS)?;
        match create(alloc, &mut disk, LmsType::H10, OtsType::W4, i, seed) {
            Ok(_) => {}
            Err(_) => return Err(Memory),
        }
        let signer = match Signer::load(alloc, &mut disk) {
            Ok(signer) => signer,
            Err(_) => return Err(Memory),
        };
        Ok(Journal {
            signer,
            disk,
            used: 0,
        })
    }

    /// The 56 bytes of the key's public part.
    pub fn public(&self) -> &[u8]
        ensures { result.now ≡ key_bytes (public_key_of self.now.secret) }
    {
        self.signer.public_bytes()
    }

    /// Signs with the first leaf that is not used, and uses it. After a refusal it may be used.
    pub fn sign(&mut self, alloc: Global, message: &[u8]) -> Result<Octets, Memory>
        requires { self.old.used < 1024 }
        ensures signed { IfOk result (λ signed. signed ≡ signed_by self.old.secret self.old.used message.now) }
        ensures next { OnOk result (self.new ≡ record self.old { used = self.old.used + 1 }) }
        ensures key { self.new.secret ≡ self.old.secret }
    {
        let mut signed = vec![in alloc; 0u8; self.signer.signature_len()]?;
        self.used += 1;
        match self
            .signer
            .sign(&mut self.disk, message, signed.as_mut_slice())
        {
            Ok(_) => {}
            Err(SignFault::Exhausted) => unreachable!(),
            Err(SignFault::Disk) => return Err(Memory),
        }
        Ok(Octets::from_vec(signed))
    }
}
