//! How an annotation skips the entries that it lists.

ghost use Rattle.std.specs.Prelude.{◌≡◌, ◌==◌, ◌&&◌, ◌+◌, ℕ, List, Bool, Some, None, true, false, IfNone, IfSome, OnOk};
ghost use Rattle.std.specs.Prelude.{OnErr};
ghost use Rattle.std.specs.Option.{option_copied};
ghost use Rattle.judging.specs.Books.{HasLanes, place_of};
ghost use Rattle.judging.specs.Engines.{KeepsNote, KeepsNothing, taken};
ghost use Rattle.judging.specs.Hits.{IsHit, IsHitBy, some_hit, without};

use crate::book::Book;
use crate::engine::Engine;
use crate::{Judge, KeyIds};
use git_object::{KeyId, ObjectId};
use octets::Memory;
use rsl_chain::Entry;
use std::alloc::Global;

// The number of an id, where it is a reference's of which the key may skip entries.
fn number_to_skip<P, F, S, J: Judge<P, F, S>>(
    judge: &J,
    policy: &P,
    key: &KeyId,
    book: &Book<F>,
    id: &ObjectId,
) -> Option<u64>
    ensures some { IfSome result (λ n. (hit : List ℕ → ℕ → Bool)
        → IsHit (J.rules judge.now) policy.now key.now book.now hit → (m : ℕ) → hit id.now m ≡ (m == n)) }
    ensures none { IfNone result ((hit : List ℕ → ℕ → Bool) → IsHit (J.rules judge.now) policy.now key.now book.now hit
        → (m : ℕ) → hit id.now m ≡ false) }
{
    let number = book.place(id)?;
    let name = book.name_of(number)?;
    if judge.may_skip(policy, key, name) {
        Some(number)
    } else {
        None
    }
}

// Skips the entry of an id, where the key may.
fn skip_one<P, F, S, J: Judge<P, F, S>>(
    judge: &J,
    policy: &P,
    key: &KeyId,
    book: &mut Book<F>,
    id: &ObjectId,
)
    ensures lanes { (hit : List ℕ → ℕ → Bool) → IsHit (J.rules judge.now) policy.now key.now book.old hit
        → HasLanes (λ name lane. without (hit id.now) lane) book.old book.new }
    ensures targets { book.new.targets ≡ book.old.targets }
{
    match number_to_skip::<P, F, S, J>(judge, policy, key, book, id) {
        Some(number) => book.skip(number),
        None => {}
    }
}

/// Skips the entries of the ids, where the key may.
pub fn skip_all<P, F, S, J: Judge<P, F, S>>(
    judge: &J,
    policy: &P,
    key: &KeyId,
    book: &mut Book<F>,
    ids: &[ObjectId],
)
    ensures lanes { (hit : List ℕ → ℕ → Bool) → IsHit (J.rules judge.now) policy.now key.now book.old hit
        → HasLanes (λ name lane. without (some_hit hit ids.now) lane) book.old book.new }
    ensures targets { book.new.targets ≡ book.old.targets }
{
    'ids: for id in ids {
        skip_one::<P, F, S, J>(judge, policy, key, book, id);
    }
}

/// Skips the entries of the ids, where a policy is in force and the annotation is signed by a key of it that may.
pub fn skip_listed<P, F, S, J: Judge<P, F, S>>(
    judge: &J,
    policy: Option<&P>,
    book: &mut Book<F>,
    annotation: &Entry,
    ids: &[ObjectId],
)
    ensures lanes { (hit : List ℕ → ℕ → Bool) → IsHitBy (J.rules judge.now) (option_copied policy.entry) annotation.now
        book.old hit → HasLanes (λ name lane. without (some_hit hit ids.now) lane) book.old book.new }
    ensures targets { book.new.targets ≡ book.old.targets }
{
    let Some(policy) = policy else {
        return;
    };
    match judge.skipper(policy, annotation) {
        Some(key) => skip_all::<P, F, S, J>(judge, policy, &key, book, ids),
        None => {}
    }
}

// Skips the ids of an annotation that says so.
fn skip_where<P, F, S, J: Judge<P, F, S>>(
    judge: &J,
    policy: Option<&P>,
    book: &mut Book<F>,
    annotation: &Entry,
    ids: &[ObjectId],
    skip: bool,
)
    ensures lanes { (hit : List ℕ → ℕ → Bool) → IsHitBy (J.rules judge.now) (option_copied policy.entry) annotation.now
        book.old hit → HasLanes (λ name lane. without (λ n. skip && some_hit hit ids.now n) lane) book.old book.new }
    ensures targets { book.new.targets ≡ book.old.targets }
{
    if skip {
        skip_listed::<P, F, S, J>(judge, policy, book, annotation, ids);
    }
}

/// Takes an annotation. After a refusal the engine stands for what it stood for.
pub fn take_note<P, F, S, J: Judge<P, F, S>>(
    alloc: Global,
    engine: &mut Engine<P, F>,
    judge: &J,
    annotation: &Entry,
    ids: &[ObjectId],
    skip: bool,
) -> Result<(), Memory>
    requires { place_of engine.old.book annotation.now.id ≡ None }
    ensures kept { OnOk result (KeepsNote (J.rules judge.now) annotation.now ids.now skip engine.old engine.new) }
    ensures count { OnOk result (taken engine.new ≡ taken engine.old + 1) }
    ensures same { OnErr result (KeepsNothing engine.old engine.new) }
{
    engine.book.add_note(&annotation.id)?;
    let policy = engine.policy.as_ref();
    skip_where::<P, F, S, J>(judge, policy, &mut engine.book, annotation, ids, skip);
    engine.signers = KeyIds::new(alloc);
    Ok(())
}
