//! What holds of the definitions. No call needs these functions: their contracts are the laws.

ghost use Rattle.desk_core.specs.Laws.{AllOrAstray, NoneAstrayInLog, OneAstray};

/// Of ids behind a log either all entries come next, or one is the first that does not, and there is one such at most.
/// Where the ids go on with a repository's log, there is none.
pub fn astray()
    ensures all { AllOrAstray }
    ensures one { OneAstray }
    ensures none { NoneAstrayInLog }
{}
