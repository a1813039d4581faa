//! Laws of the order of ancestors.

ghost use Rattle.std.specs.Prelude.{◌≡◌, ◌≤◌, ◌+◌, ◌++◌, ℕ, List, length};
ghost use Rattle.git_object.specs.Repository.{Repository};
ghost use Rattle.global_rules.specs.Commits.{AreParentsAt, commit_parents};
ghost use Rattle.global_rules.specs.Descents.{IsDescent};
ghost use Rattle.global_rules.specs.Order.{Parents, ancestors, met};
ghost use Rattle.global_rules.specs.Reaching.{IsOrderOfReached};
ghost use Rattle.global_rules.specs.declared.descents.Descent.{Descent};

/// There is one answer.
pub fn one_descent()
    ensures { (most : ℕ) (parents : Parents) (root from : List ℕ) (a b : Descent)
        → IsDescent most parents root from a → IsDescent most parents root from b → a ≡ b }
{}

/// More turns add at the end alone.
pub fn fronts()
    ensures met { (parents : Parents) (root : List ℕ) (n more : ℕ)
        → (rest : List (List ℕ)) × (met parents root (more + n) ≡ met parents root n ++ rest) }
    ensures ancestors { (parents : Parents) (root : List ℕ) (n more : ℕ)
        → (rest : List (List ℕ)) × (ancestors parents root (more + n) ≡ ancestors parents root n ++ rest) }
{}

/// Where each that was met had its turn, no more are met.
pub fn closed()
    ensures { (parents : Parents) (root : List ℕ) (n more : ℕ) → length (met parents root n) ≤ n
        → met parents root (more + n) ≡ met parents root n }
{}

/// The order of ancestors has each commit that is reached from the first by parents, and no other; and no id is met
/// twice.
pub fn reached()
    ensures { (parents : Parents) (root : List ℕ) → IsOrderOfReached parents root }
{}

/// What the definitions call the parents at an id are those that the commit of this id names, and none where there is
/// no such commit.
pub fn parents()
    ensures { (r : Repository) (id : List ℕ) → AreParentsAt r id (commit_parents r id) }
{}
