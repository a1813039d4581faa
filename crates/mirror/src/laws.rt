//! Laws over the definitions of this crate. No call needs these functions: their contracts are the laws.

ghost use Rattle.mirror.specs.Growing.{KeepsForks, OnlyGrows};
ghost use Rattle.mirror.specs.Laws.{ForksAreNamed, OneMaking, OneOffering};

use rsl_chain::laws::logs;

/// An offered log is exactly one of the four things to a kept one.
pub fn one_offering()
    ensures { OneOffering }
{}

/// An offer makes one repository of a kept one, and is answered in one way.
pub fn one_making()
    ensures { OneMaking }
{
    logs();
}

/// Over every list of offers, none of whose objects clashes with one that is kept, the log that was kept is a front of
/// the log that is kept then, and each other past that was kept still is.
pub fn only_grows()
    ensures { OnlyGrows }
{
    logs();
}

/// An offer of another past leaves a reference to a kept entry of the number at which the logs part, where the kept log
/// has another one.
pub fn keeps_forks()
    ensures { KeepsForks }
{
    logs();
}

/// `refs/mirror/fork/<number>/<id>` is a reference name for each number of an entry and each id, so that each entry of
/// another past has one.
pub fn forks_are_named()
    ensures { ForksAreNamed }
{}
