//! Rule files from one policy to the next.

ghost use Rattle.std.specs.Prelude.{◌≡◌};
ghost use Rattle.std.specs.List.{find};
ghost use Rattle.std.specs.Option.{option_copied};
ghost use Rattle.policy_epochs.specs.Succession.{has_file, is_above, is_changed, is_dropped, is_lowered, is_raised};
ghost use Rattle.policy_epochs.specs.Succession.{may_go, was_lower};

use crate::PolicyFile;
use octets::Octets;

fn has_file(files: &[PolicyFile], name: &[u8]) -> bool
    ensures { result ≡ has_file files.now name.now }
{
    files.iter().any(|file| file.name.as_slice() == name)
}

// Whether the new file is the old one with other bytes and no higher version.
fn is_changed(old: &PolicyFile, new: &PolicyFile) -> bool
    ensures { result ≡ is_changed old.now new.now }
{
    new.name.as_slice() == old.name.as_slice()
        && new.payload.as_slice() != old.payload.as_slice()
        && new.version <= old.version
}

fn is_lowered(new: &[PolicyFile], old: &PolicyFile) -> bool
    ensures { result ≡ is_lowered new.now old.now }
{
    new.iter().any(|file| is_changed(old, file))
}

/// The first of the old files that the new ones have with other bytes and no higher version.
pub(crate) fn find_lowered<'o>(old: &'o [PolicyFile], new: &[PolicyFile]) -> Option<&'o PolicyFile>
    ensures { option_copied result ≡ find (is_lowered new.now) old.now }
{
    old.iter().find(|file| is_lowered(new, file))
}

// Whether a file of the name is among the old ones with a version below this.
fn was_lower(old: &[PolicyFile], name: &[u8], version: u64) -> bool
    ensures { result ≡ was_lower old.now name.now version }
{
    old.iter().any(|file| file.name.as_slice() == name && file.version < version)
}

fn is_above(old: &[PolicyFile], name: &[u8], file: &PolicyFile) -> bool
    ensures { result ≡ is_above old.now name.now file.now }
{
    file.name.as_slice() == name && was_lower(old, name, file.version)
}

fn is_raised(old: &[PolicyFile], new: &[PolicyFile], name: &[u8]) -> bool
    ensures { result ≡ is_raised old.now new.now name.now }
{
    new.iter().any(|file| is_above(old, name, file))
}

// Whether a file below this holder may go.
fn may_go(
    old: &[PolicyFile],
    new: &[PolicyFile],
    root_raised: bool,
    holder: &Option<Octets>,
) -> bool
    ensures { result ≡ may_go old.now new.now root_raised holder.now }
{
    match holder {
        None => root_raised,
        Some(name) => { is_raised(old, new, name.as_slice()) || !has_file(new, name.as_slice()) }
    }
}

fn is_dropped(old: &[PolicyFile], new: &[PolicyFile], root_raised: bool, file: &PolicyFile) -> bool
    ensures { result ≡ is_dropped old.now new.now root_raised file.now }
{
    !has_file(new, file.name.as_slice()) && !may_go(old, new, root_raised, &file.holder)
}

/// The first of the old files that is gone and may not go.
pub(crate) fn find_dropped<'o>(
    old: &'o [PolicyFile],
    new: &[PolicyFile],
    root_raised: bool,
) -> Option<&'o PolicyFile>
    ensures { option_copied result ≡ find (is_dropped old.now new.now root_raised) old.now }
{
    old.iter()
        .find(|file| is_dropped(old, new, root_raised, file))
}
