//! Where rules stand.

/// The place of a rule: the place of its file among the policy's files, and its own in that file, both counted from 0.
#[derive(Clone, Copy, Debug, PartialEq, Eq, Drop)]
pub struct RuleRef {
    pub file: u32,
    pub rule: u32,
}

/// How the first reached rule falls short or not: its place, how many of its persons signed, and how many must.
#[derive(Clone, Copy, Debug, PartialEq, Eq, Drop)]
pub struct Short {
    pub place: RuleRef,
    pub got: usize,
    pub need: u32,
}
