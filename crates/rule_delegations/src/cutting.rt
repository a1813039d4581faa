//! Files that hang on no chain.

ghost use Rattle.std.specs.Prelude.{◌≡◌, ◌&&◌, ◌||◌, ℕ, List, not, slice_index_or, false, IfOk, OnOk};
ghost use Rattle.std.specs.BTreeSet.{contains};
ghost use Rattle.std.specs.Str.{bytes_eq};
ghost use Rattle.octets.specs.BytesMap.{by_bytes};
ghost use Rattle.rule_delegations.specs.Assembling.{IsCutOff, IsFirstName};
ghost use Rattle.rule_delegations.specs.Forests.{AreDistinct};
ghost use Rattle.rule_delegations.specs.Marks.{AreMarked};

use octets::{Memory, Octets};
use rule_files::RuleFile;
use std::alloc::Global;
use std::collections::BTreeSet;

// Whether the file at a place is marked.
fn is_marked(marks: &[bool], at: usize) -> bool
    ensures { result ≡ slice_index_or marks.now at false }
{
    marks.get(at).copied().unwrap_or(false)
}

// Adds a name, unless it is that of a marked file.
fn add_unmarked(names: &mut BTreeSet<Octets>, name: &Octets, marked: bool) -> Result<(), Memory>
    ensures { OnOk result ((q : List ℕ)
        → contains by_bytes names.new q ≡ (contains by_bytes names.old q || (not marked && bytes_eq q name.now))) }
{
    if marked {
        return Ok(());
    }
    names.insert(name.copy()?)?;
    Ok(())
}

/// The least name of a file, other than the top, that is on no chain from the top file.
pub(crate) fn cut_off(
    alloc: Global,
    files: &[RuleFile],
    marks: &[bool],
) -> Result<Option<Octets>, Memory>
    requires marked { AreMarked files.now marks.now }
    requires distinct { AreDistinct files.now }
    ensures { IfOk result (IsFirstName (IsCutOff files.now)) }
{
    let mut names = BTreeSet::new(alloc);
    for (at, file) in files.iter().enumerate() {
        add_unmarked(&mut names, &file.name, is_marked(marks, at))?;
    }
    Ok(names.pop_first())
}
