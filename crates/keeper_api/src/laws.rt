//! Laws on what a change makes of a repository, and on what a keeper tells.

ghost use Rattle.std.specs.Prelude.{◌≡◌, ◌<◌, ◌-◌, ◌^◌, ℕ, true, Some};
ghost use Rattle.git_object.specs.Repository.{Repository};
ghost use Rattle.keeper_api.specs.Changes.{changed};
ghost use Rattle.keeper_api.specs.Growing.{AreNew, HasAll, Larger, NoneClashes};
ghost use Rattle.keeper_api.specs.Undisturbed.{Undisturbed};
ghost use Rattle.keeper_api.specs.declared.changes.Change.{Change};

use crate::Keeper;

/// A change none of whose objects clashes with one that is kept makes a larger repository.
pub fn change_grows()
    ensures { (change : Change) (r : Repository) → NoneClashes change.objects r → Larger r (changed change r) }
{}

/// And where each is within the limit and no two of them clash, each is there afterwards, under its own id.
pub fn change_stays()
    ensures { (change : Change) (r : Repository) → AreNew change.objects r → HasAll (changed change r) change.objects }
{}

/// What a keeper told it tells after calls that make no commit and count no fault, before the count is at its end,
/// where its medium is clean.
pub fn tells_on<R: Keeper>()
    ensures { (old new : R) (r : Repository) → Undisturbed R.Keeper old new → R.is_clean new ≡ true
        → R.faults old < 2 ^ 64 - 1 → R.faults new ≡ R.faults old → R.content old ≡ Some r → R.content new ≡ Some r }
{}
