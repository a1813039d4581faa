//! What holds of the definitions. No call needs these functions: their contracts are the laws.

ghost use Rattle.pushes.specs.MakingLaws.{NothingLacks, OneGo, OneMaking};
ghost use Rattle.pushes.specs.Reached.{WalkReaches};

/// What goes with an entry of a reference is what is reached from its target and not from the value before, each once.
pub fn reached()
    ensures { WalkReaches }
{}

/// One list of ids at most goes with an entry.
pub fn one_go()
    ensures { OneGo }
{}

/// An entry has one push at most, or lacks one object first, or is too large, and never two of these.
pub fn one_making()
    ensures { OneMaking }
{}

/// A desk that has what is reached from the value before lacks nothing that the push needs.
pub fn nothing_lacks()
    ensures { NothingLacks }
{}
