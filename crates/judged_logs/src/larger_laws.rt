//! What is lawful in a log stays lawful in larger repositories, by any rules that last. No call needs these functions:
//! their contracts are the laws.

ghost use Rattle.std.specs.Prelude.{◌≡◌, ◌++◌, ℕ, List, true};
ghost use Rattle.std.specs.List.{AllByRecursion};
ghost use Rattle.git_object.specs.Repository.{Repository};
ghost use Rattle.rsl_chain.specs.Entries.{Taken};
ghost use Rattle.judging.specs.Logs.{authorised, rescued};
ghost use Rattle.judging.specs.Rules.{Rules};
ghost use Rattle.judged_logs.specs.Gates.{AreEpochs, AreTaken, HasNoViolation, all_in, repository_after};
ghost use Rattle.judged_logs.specs.Growing.{AllGrow, Lasting, SameEpochs};
ghost use Rattle.judged_logs.specs.Changes.{ArePassed, Outcome, added, store_after};

/// With the same epochs, an entry that is authorised is so where each entry is judged in a larger repository, and one
/// that is rescued is rescued there.
pub fn more_objects<P, F>()
    ensures authorised { (rules : Rules P F) (log more : List Taken) (i : ℕ) → Lasting rules → AllGrow log more
        → SameEpochs rules log more → authorised rules log i ≡ true → authorised rules more i ≡ true }
    ensures rescued { (rules : Rules P F) (log more : List Taken) (i : ℕ) → Lasting rules → AllGrow log more
        → SameEpochs rules log more → rescued rules log i ≡ true → rescued rules more i ≡ true }
{}

/// Where every entry for the policy is an epoch, the epochs are the same in larger repositories.
pub fn epochs_stay<P, F>()
    ensures { (rules : Rules P F) (log more : List Taken) → Lasting rules → AllGrow log more → AreEpochs rules log
        → SameEpochs rules log more }
{}

/// Behind a gate that takes only what has no fault, in ever larger repositories, no reference of a log without
/// violations comes to have one, in the repository as it then is.
pub fn lawful_stays<P, F>()
    ensures { (rules : Rules P F) (loaded taken : List Taken) (r : Repository) → Lasting rules
        → AllByRecursion (λ t. t.repository ≡ r) loaded → HasNoViolation rules loaded → AreEpochs rules loaded
        → AreTaken rules loaded r taken
        → HasNoViolation rules (all_in (repository_after r taken) (loaded ++ taken))
        × AreEpochs rules (all_in (repository_after r taken) (loaded ++ taken)) }
{}

/// And so after every list of changes of which each adds an entry that is not refused, and replaces no object, or adds
/// nothing.
pub fn gate_holds<P, F>()
    ensures { (rules : Rules P F) (loaded : List Taken) (r : Repository) (outcomes : List Outcome) → Lasting rules
        → AllByRecursion (λ t. t.repository ≡ r) loaded → HasNoViolation rules loaded → AreEpochs rules loaded
        → ArePassed rules loaded r outcomes
        → HasNoViolation rules (all_in (store_after r outcomes) (loaded ++ added r outcomes))
        × AreEpochs rules (all_in (store_after r outcomes) (loaded ++ added r outcomes)) }
{}
