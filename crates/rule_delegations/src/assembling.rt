//! From rule files to the rules of a policy.

ghost use Rattle.std.specs.Prelude.{◌≡◌, ◌⊎◌, ◌<◌, length, IfErr, IfOk, OnOk};
ghost use Rattle.rule_delegations.specs.declared.assembling.AssembleFault.{AssembleFault};
ghost use Rattle.rule_delegations.specs.declared.assembling.AssembleFault.TheVariants as fault;
ghost use Rattle.rule_delegations.specs.Assembling.{HasFault, IsFirstFault};
ghost use Rattle.rule_delegations.specs.Forests.{IsPolicy};

use crate::counting::excess;
use crate::cutting::cut_off;
use crate::deep::too_deep;
use crate::forest::Forest;
use crate::links::link;
use crate::marking::come_upon;
use crate::twice::name_twice;
use octets::{Memory, Octets};
use rule_files::RuleFiles;
use std::alloc::Global;

/// Why rule files are no rules of a policy. The first that holds is answered.
#[derive(Drop)]
pub enum AssembleFault {
    /// Two rules, or two files, have this name, the least such by bytes.
    DuplicateName { name: Octets },
    /// A file other than the top has this name, the least such by bytes, and no rule on a chain from the top file has
    /// it.
    Unreachable { name: Octets },
    /// The name of the first rule in pre-order that is the ninth of a chain.
    TooDeep { name: Octets },
    /// There are more than 1,024 rules, of which this is the number, or else more than 1,024 listed keys, repeats
    /// included.
    TooMany { count: usize },
    Memory,
}

impl From<Memory> for AssembleFault {
    ghost from_gives = { λ _ e. e ≡ fault.Memory };

    fn from(_error: Memory) -> AssembleFault {
        AssembleFault::Memory
    }
}

/// The fault of files, of which there are some.
fn fault_of(alloc: Global, forest: &Forest) -> Result<Option<AssembleFault>, Memory>
    requires { 0 < length forest.now }
    ensures { IfOk result (IsFirstFault forest.now) }
{
    match name_twice(alloc, forest.files())? {
        Some(name) => return Ok(Some(AssembleFault::DuplicateName { name })),
        None => {}
    }
    let marks = come_upon(alloc, forest)?;
    match cut_off(alloc, forest.files(), marks.as_slice())? {
        Some(name) => return Ok(Some(AssembleFault::Unreachable { name })),
        None => {}
    }
    match too_deep(forest)? {
        Some(name) => return Ok(Some(AssembleFault::TooDeep { name })),
        None => {}
    }
    match excess(forest.files()) {
        Some(count) => Ok(Some(AssembleFault::TooMany { count })),
        None => Ok(None),
    }
}

/// The files with the links between them, where they are the files of a policy.
pub(crate) fn forest_of(alloc: Global, files: RuleFiles) -> Result<Forest, AssembleFault>
    ensures ok { IfOk result (λ forest. forest ≡ files) }
    ensures policy { OnOk result (IsPolicy files) }
    ensures sound { OnOk result ((fault : AssembleFault) → HasFault files fault → ⊥) }
    ensures refused { IfErr result (λ e. (e ≡ fault.Memory) ⊎ HasFault files e) }
{
    let forest = link(alloc, files)?;
    if forest.files().is_empty() {
        return Ok(forest);
    }
    match fault_of(alloc, &forest)? {
        Some(fault) => Err(fault),
        None => Ok(forest),
    }
}
