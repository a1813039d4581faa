//! What a good signature uses, level by level. Nothing is copied.

ghost use Rattle.std.specs.Prelude.{◌≡◌, ◌<◌, ◌==◌, ◌&&◌, ◌∷◌, not, IfSome, Option};
ghost use Rattle.std.specs.List.{list_any};
ghost use Rattle.std.specs.Str.{bytes_eq};
ghost use Rattle.lms_keys.specs.SigOk.{SigOk};
ghost use Rattle.evidence.specs.Uses.{is_reuse, reuse_of, uses};
ghost use Rattle.evidence.specs.Walking.{AreGood, use_of, uses_below, uses_in};

use lmots::pieces::number_at;
use lms_keys::PublicKey;

/// A leaf of a key, and what it signs.
#[derive(Clone, Copy)]
pub(crate) struct LeafUse<'a> {
    pub key: &'a [u8],
    pub leaf: u32,
    pub message: &'a [u8],
}

/// A key, and its signature: so many signed keys, and the signature of the message behind them.
#[derive(Clone, Copy)]
pub(crate) struct SignedKeys<'a> {
    pub below: u32,
    pub key: &'a [u8],
    pub message: &'a [u8],
    pub signature: &'a [u8],
}

/// The key of a good signature and what is behind its number of levels.
pub(crate) fn signed_keys<'a>(
    public: &'a [u8],
    message: &'a [u8],
    signature: &'a [u8],
) -> SignedKeys<'a>
    requires { SigOk public.now message.now signature.now }
    ensures uses { uses public.now message.now signature.now ≡ uses_in result }
    ensures good { AreGood result }
{
    if public.len() == 60 {
        let (_, key) = public.split_at(4);
        let (_, rest) = signature.split_at(4);
        SignedKeys {
            below: number_at(public, 0) - 1,
            key,
            message,
            signature: rest,
        }
    } else {
        SignedKeys {
            below: 0,
            key: public,
            message,
            signature,
        }
    }
}

// The use of the first key, and the keys below it.
fn split_use(signed: SignedKeys<'_>) -> (LeafUse<'_>, Option<SignedKeys<'_>>)
    requires { AreGood signed }
    ensures uses { uses_in signed.entry ≡ use_of result.0 ∷ uses_below result.1 }
    ensures good { IfSome result.1 AreGood }
    ensures fewer { IfSome result.1 (λ more. more.below < signed.entry.below) }
{
    let leaf = number_at(signed.signature, 0);
    let last = LeafUse {
        key: signed.key,
        leaf,
        message: signed.message,
    };
    if signed.below == 0 {
        return (last, None);
    }
    let Ok(key) = PublicKey::read(signed.key) else {
        return (last, None);
    };
    let (_, rest) = signed.signature.split_at(key.lms.signature_len(key.ots));
    let (next, behind) = rest.split_at(56);
    let first = LeafUse {
        key: signed.key,
        leaf,
        message: next,
    };
    let more = SignedKeys {
        below: signed.below - 1,
        key: next,
        message: signed.message,
        signature: behind,
    };
    (first, Some(more))
}

// One leaf of one key, and another message.
fn is_reuse(used: LeafUse<'_>, other: LeafUse<'_>) -> bool
    ensures { result ≡ is_reuse (use_of used.entry) (use_of other.entry) }
{
    used.key == other.key && used.leaf == other.leaf && used.message != other.message
}

// Whether the signature uses the leaf for another message.
fn is_used_again(used: LeafUse<'_>, signed: SignedKeys<'_>) -> bool
    requires { AreGood signed }
    ensures { result ≡ list_any (is_reuse (use_of used.entry)) (uses_in signed.entry) }
{
    let (first, more) = split_use(signed);
    if is_reuse(used, first) {
        return true;
    }
    match more {
        Some(more) => is_used_again(used, more),
        None => false,
    }
}

/// The leaf of the first use of the left signature that is used again by the right one.
pub(crate) fn first_reuse(left: SignedKeys<'_>, right: SignedKeys<'_>) -> Option<u32>
    requires left { AreGood left }
    requires right { AreGood right }
    ensures { result ≡ reuse_of (uses_in left.entry) (uses_in right.entry) }
{
    let (first, more) = split_use(left);
    if is_used_again(first, right) {
        return Some(first.leaf);
    }
    match more {
        Some(more) => first_reuse(more, right),
        None => None,
    }
}
