//! The header of a key file: its first 64 bytes, or 72 with two levels.

ghost use Rattle.std.specs.Prelude.{◌≡◌, ◌+◌, ◌≤◌, ◌^◌, List, ℕ, Bool, length, take, IfNone, IfSome, IfOk, IfErr};
ghost use Rattle.std.specs.Prelude.{IsErrOf, Option, Some};
ghost use Rattle.lmots.specs.OtsType as one_time;
ghost use Rattle.lms_keys.specs.LmsType.{code, height};
ghost use Rattle.lms_keys.specs.PublicKey.{number_in};
ghost use Rattle.lms_keys.specs.Secret as one;
ghost use Rattle.lms_keys.specs.HssSecret.{height_below};
ghost use Rattle.lms_keys.specs.declared.below.Below.{Below};
ghost use Rattle.leaf_journal.specs.KeyFile.{HasBelow, HasTop, IsHeader, IsKeyFile, magic_of, start_of};
ghost use Rattle.leaf_journal.specs.Loading.{Begins, WhyNotLoaded, magic_for, secret_with};
ghost use Rattle.leaf_journal.specs.declared.faults.LoadFault.TheVariants as fault;

use crate::LoadFault;
use lmots::OtsType;
use lmots::pieces::{number_at, put};
use lms_keys::{Below, LmsType};

/// What a header says of the types of its key.
#[derive(Clone, Copy, PartialEq, Eq)]
pub struct Header {
    pub lms: LmsType,
    pub ots: OtsType,
    pub below: Option<Below>,
}

impl Header {
    /// The key has 2 to this many leaves.
    pub fn height(&self) -> u32
        ensures { result ≡ height self.now.lms + height_below self.now.below }
    {
        match self.below {
            None => self.lms.height(),
            Some(below) => self.lms.height() + below.lms.height(),
        }
    }

    /// The place of the first leaf's byte.
    pub fn start(&self) -> u64
        ensures begins { result ≡ start_of self.now.below }
        ensures near { result ≤ 72 }
    {
        match self.below {
            None => 64,
            Some(_) => 72,
        }
    }
}

/// The number of leaves of a key with this height.
pub fn leaves_of(height: u32) -> u64
    requires { height ≤ 15 }
    ensures { result ≡ 2 ^ height }
{
    1 << height
}

// The types and whether there are two levels, as the first 64 bytes say.
#[derive(Clone, Copy)]
struct Top {
    two: bool,
    lms: LmsType,
    ots: OtsType,
}

// Whether the magic is that of two levels; None where it is no key file's.
fn levels_in(head: &[u8; 72]) -> Option<bool>
    ensures found { IfSome result (λ two. take 8 head.now ≡ magic_for two) }
    ensures none { IfNone result ((two : Bool) → take 8 head.now ≡ magic_for two → ⊥) }
{
    if &head[..8] == b"LMSKEY01".as_slice() {
        return Some(false);
    }
    if &head[..8] == b"LMSKEY02".as_slice() {
        return Some(true);
    }
    None
}

// Reads the first 64 bytes, and copies the identifier and the seed out. None where no key's file begins so.
fn read_top(head: &[u8; 72], i: &mut [u8; 16], seed: &mut [u8; 32]) -> Option<Top>
    ensures found { IfSome result (λ top. HasTop (magic_for top.two) head.now
        (record { lms = top.lms; ots = top.ots; i = i.new; seed = seed.new })) }
    ensures none { IfNone result ((two : Bool) (top : one.Secret) → HasTop (magic_for two) head.now top → ⊥) }
{
    let two = levels_in(head)?;
    let lms = LmsType::of_code(number_at(head, 8))?;
    let ots = OtsType::of_code(number_at(head, 12))?;
    i.copy_from_slice(&head[16..32]);
    seed.copy_from_slice(&head[32..64]);
    Some(Top { two, lms, ots })
}

// Reads the types of the keys below, behind the first 64 bytes.
fn read_below(head: &[u8; 72]) -> Option<Below>
    ensures found { IfSome result (λ below. HasBelow head.now (Some below)) }
    ensures none { IfNone result ((below : Below) → HasBelow head.now (Some below) → ⊥) }
{
    let lms = LmsType::of_code(number_at(head, 64))?;
    let ots = OtsType::of_code(number_at(head, 68))?;
    Some(Below { lms, ots })
}

// The keys below, in a file of so many bytes.
fn below_in(head: &[u8; 72], two: bool, len: u64) -> Option<Option<Below>>
    requires { 64 ≤ len }
    ensures magic { IfSome result (λ below. magic_of below ≡ magic_for two) }
    ensures long { IfSome result (λ below. start_of below ≤ len) }
    ensures found { IfSome result (HasBelow head.now) }
    ensures none { IfNone result ((below : Option Below) → magic_of below ≡ magic_for two → start_of below ≤ len
        → HasBelow head.now below → ⊥) }
{
    if !two {
        return Some(None);
    }
    if len < 72 {
        return None;
    }
    let below = read_below(head)?;
    Some(Some(below))
}

/// Reads the header of a key file of `len` bytes, at least 64, from its first bytes, and copies its identifier and its
/// seed out.
///
/// `BadHeader` comes where the bytes are the header of no key, and then `WrongLength` where the length is another than
/// the header and a byte for each leaf need.
pub fn read_header(
    head: &[u8; 72],
    len: u64,
    i: &mut [u8; 16],
    seed: &mut [u8; 32],
) -> Result<Header, LoadFault>
    requires { 64 ≤ len }
    ensures found { IfOk result (λ header. (file : List ℕ) → length file ≡ len → Begins head.now file
        → IsKeyFile file (secret_with header i.new seed.new)) }
    ensures low { IfOk result (λ header. height header.lms + height_below header.below ≤ 15) }
    ensures why { IfErr result (λ fault. (file : List ℕ) → length file ≡ len → Begins head.now file
        → WhyNotLoaded fault file) }
    ensures unread { IsErrOf result fault.Disk → ⊥ }
    ensures memory { IsErrOf result fault.Memory → ⊥ }
{
    let Some(top) = read_top(head, i, seed) else {
        return Err(LoadFault::BadHeader);
    };
    let Some(below) = below_in(head, top.two, len) else {
        return Err(LoadFault::BadHeader);
    };
    let header = Header {
        lms: top.lms,
        ots: top.ots,
        below,
    };
    if header.height() > 15 {
        return Err(LoadFault::BadHeader);
    }
    if len != header.start() + leaves_of(header.height()) {
        return Err(LoadFault::WrongLength { len });
    }
    Ok(header)
}

// The magic of a file of one level or of two.
fn magic(two: bool) -> [u8; 8]
    ensures { result ≡ magic_for two }
{
    if two { *b"LMSKEY02" } else { *b"LMSKEY01" }
}

// Writes the first 64 bytes.
fn write_top(two: bool, lms: LmsType, ots: OtsType, i: &[u8; 16], seed: &[u8; 32], out: &mut [u8])
    requires room { length out.old ≡ 64 }
    ensures top { HasTop (magic_for two) out.new (record { lms = lms; ots = ots; i = i.now; seed = seed.now }) }
    ensures long { length out.new ≡ 64 }
{
    put(out, 0, &magic(two));
    put(out, 8, &lms.code().to_be_bytes());
    put(out, 12, &ots.code().to_be_bytes());
    put(out, 16, i);
    put(out, 32, seed);
}

// Writes the 8 bytes that tell the keys below.
fn write_below(below: Below, out: &mut [u8])
    requires room { length out.old ≡ 8 }
    ensures lms { number_in out.new 0 ≡ code below.lms }
    ensures ots { number_in out.new 4 ≡ one_time.code below.ots }
    ensures long { length out.new ≡ 8 }
{
    put(out, 0, &below.lms.code().to_be_bytes());
    put(out, 4, &below.ots.code().to_be_bytes());
}

/// Writes the header of a key whose heights add up to at most 15.
pub fn write_header(header: &Header, i: &[u8; 16], seed: &[u8; 32], out: &mut [u8])
    requires room { length out.old ≡ start_of header.now.below }
    requires low { height header.now.lms + height_below header.now.below ≤ 15 }
    ensures header { IsHeader out.new (secret_with header.now i.now seed.now) }
    ensures long { length out.new ≡ start_of header.now.below }
{
    match header.below {
        None => write_top(false, header.lms, header.ots, i, seed, out),
        Some(below) => {
            let (top, rest) = out.split_at_mut(64);
            write_top(true, header.lms, header.ots, i, seed, top);
            write_below(below, rest);
        }
    }
}
