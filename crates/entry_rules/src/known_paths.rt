//! What is known of paths, lent to whoever asks.

ghost use Rattle.std.specs.Prelude.{◌≡◌, IfOk};
ghost use Rattle.std.specs.List.{find};
ghost use Rattle.entry_rules.specs.Changing.{is_unmet};

use crate::changes::first_unmet;
use crate::unmet::{UnmetRows, copied_text};
use octets::{Memory, Octets};
use root_metadata::KeyIds;
use rule_delegations::Rules;
use std::alloc::Global;
use std::cell::Cell;

/// So many paths are looked for in what is known.
pub const MANY: usize = 64;

/// What is known of which of many paths is the first that signers do not meet; None where nothing is. Each row is so of
/// its rules, signers and paths wherever they stand, as those of `KnownSigners` are. It is lent by `&`, and learns
/// while it is asked. It is a cell and no struct of cells, since no crate far above could prove how that is dropped.
pub type KnownPaths = Cell<Option<UnmetRows>>;

/// The first of the paths that the signers do not meet. Where there are 64 and more, and the same were asked of before
/// by the same rules and signers, it is not looked for again, unless what was found was let go.
pub fn first_known(
    known: &KnownPaths,
    alloc: Global,
    rules: &Rules,
    signers: &KeyIds,
    paths: &[Octets],
) -> Result<Option<Octets>, Memory>
    ensures { IfOk result (λ first. first ≡ find (is_unmet rules.now signers.now) paths.now) }
{
    if paths.len() < MANY {
        return copied_text(first_unmet(rules, paths, signers));
    }
    let mut rows = match known.take() {
        Some(rows) => rows,
        None => UnmetRows::new(alloc),
    };
    let first = rows.first_unmet(alloc, rules, signers, paths);
    known.set(Some(rows));
    first
}
