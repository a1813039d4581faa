//! Matching a glob against a text, without memory.
//!
//! Up to its next star a glob is passed byte by byte with the text. Behind a star the first place is looked for from
//! which what follows can be passed up to the star after it; an earlier star never has to take more then, since that
//! next star could take as much.

ghost use Rattle.std.specs.Prelude.{◌≡◌, ◌==◌, ◌||◌};
ghost use Rattle.ref_patterns.specs.Globs.{matches};
ghost use Rattle.ref_patterns.specs.Passing.{IsFound, IsPass, is_stuck};

/// How far a glob was passed.
#[derive(Clone, Copy)]
pub(crate) enum Pass<'a> {
    /// Up to its next star: what stands after that, and what is left of the text.
    Star { after: &'a [u8], left: &'a [u8] },
    /// To its end, with all of the text.
    Whole,
    /// No further than a byte that does not match.
    Stuck,
}

// Whether a byte of a glob that is no star stands for a byte.
fn fits(wanted: u8, found: u8) -> bool
    ensures { result ≡ (wanted == 63 || wanted == found) }
{
    wanted == b'?' || wanted == found
}

// Passes a glob with a text up to its next star.
fn pass_bytes<'a>(glob: &'a [u8], text: &'a [u8]) -> Pass<'a>
    ensures { IsPass glob.now text.now result }
{
    let mut rest = glob;
    let mut left = text;
    'bytes: while let Some((wanted, after)) = rest.split_first() {
        if *wanted == b'*' {
            return Pass::Star { after, left };
        }
        let Some((found, more)) = left.split_first() else {
            return Pass::Stuck;
        };
        if !fits(*wanted, *found) {
            return Pass::Stuck;
        }
        rest = after;
        left = more;
    }
    if left.is_empty() {
        Pass::Whole
    } else {
        Pass::Stuck
    }
}

impl Pass<'_> {
    // Whether a byte did not match.
    fn is_stuck(&self) -> bool
        ensures { result ≡ is_stuck self.now }
    {
        match self {
            Pass::Star { after: _, left: _ } => false,
            Pass::Whole => false,
            Pass::Stuck => true,
        }
    }
}

// Passes what stands after a star from the first place of the text from which that can be done.
fn find<'a>(rest: &'a [u8], text: &'a [u8]) -> Pass<'a>
    ensures { IsFound rest.now text.now result }
{
    let mut left = text;
    'places: while let Some((_, more)) = left.split_first() {
        let passed = pass_bytes(rest, left);
        if !passed.is_stuck() {
            return passed;
        }
        left = more;
    }
    pass_bytes(rest, left)
}

/// Whether the glob matches the text.
pub(crate) fn glob_matches(glob: &[u8], text: &[u8]) -> bool
    ensures { result ≡ matches glob.now text.now }
{
    let (mut after, mut left) = match pass_bytes(glob, text) {
        Pass::Star { after, left } => (after, left),
        Pass::Whole => return true,
        Pass::Stuck => return false,
    };
    'stars: loop {
        match find(after, left) {
            Pass::Star {
                after: next,
                left: more,
            } => {
                after = next;
                left = more;
            }
            Pass::Whole => return true,
            Pass::Stuck => return false,
        }
    }
}
