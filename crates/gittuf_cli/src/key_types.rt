//! The types of the keys that words ask for.

ghost use Rattle.std.specs.Prelude.{◌≡◌, ◌≤◌};
ghost use Rattle.command_words.specs.FirstWords.{IsWithinLimits};
ghost use Rattle.command_words.specs.declared.commands.Command.TheVariants.{KeyGen};
ghost use Rattle.commands_keys.specs.Runs.{KeyGenRuns};
ghost use Rattle.lms_keys.specs.LmsType.{height};
ghost use Rattle.worlds.specs.Given.{world_of};
ghost use Rattle.gittuf_cli.specs.KeyTypes.{below_of, lms_of, ots_of};

use command_words::{Height, Width};
use commands_keys::key_gen;
use lmots::OtsType;
use lms_keys::LmsType;
use std::alloc::Global;
use worlds::{Ending, Kinds, Lent, Objects, Of};

// The type of a tree of this height.
fn lms_of(levels: Height) -> LmsType
    ensures is { result ≡ lms_of levels }
    ensures low { height result ≤ 15 }
{
    match levels {
        Height::H5 => LmsType::H5,
        Height::H10 => LmsType::H10,
        Height::H15 => LmsType::H15,
    }
}

// The type of the trees below, where there are two levels.
fn below_of(bottom: Option<Height>) -> Option<LmsType>
    ensures { result ≡ below_of bottom }
{
    match bottom {
        None => None,
        Some(height) => Some(lms_of(height)),
    }
}

// The type of a one-time signature with digits of this width.
fn ots_of(width: Width) -> OtsType
    ensures { result ≡ ots_of width }
{
    match width {
        Width::W1 => OtsType::W1,
        Width::W2 => OtsType::W2,
        Width::W4 => OtsType::W4,
        Width::W8 => OtsType::W8,
    }
}

/// Makes the key that the words ask for.
pub(crate) fn make_key<W: Objects>(
    alloc: Global,
    height: Height,
    width: Width,
    bottom: Option<Height>,
    outside: &mut Lent<W>,
) -> Ending
    requires { IsWithinLimits (KeyGen height width bottom) }
    ensures runs { KeyGenRuns ⟦<Of<W> as Objects>⟧.ways (lms_of height) (ots_of width) (below_of bottom)
        (world_of outside.old) (world_of outside.new) result }
    ensures unsaid { outside.new.faults_out ≡ outside.old.faults_out }
{
    key_gen::<W>(
        alloc,
        lms_of(height),
        ots_of(width),
        below_of(bottom),
        outside,
    )
}
