//! Why an entry brings no policy into force.

use octets::Octets;
use rule_delegations::AssembleFault;

/// Why a policy entry does not take effect: the first that holds, in this order. The text in verdicts stands first. A
/// file is named without `.json`; files are tried in the order root, top file, then by name. `got` counts persons, and
/// `need` is the threshold.
#[derive(Drop)]
pub enum PolicyFault {
    /// `unreadable`: what the target stands for is not there or broken.
    Unreadable,
    /// `no-root`: there is no `metadata/root.json`.
    NoRoot,
    /// `bad-file <file>`: the file's object is missing, or the file is refused.
    BadFile { file: Octets },
    /// `root-threshold <got> of <need>`: too few persons of the root role signed the root.
    RootThreshold { got: usize, need: u32 },
    /// `duplicate-name <name>`, `unreachable <name>`, `too-deep <name>` or `too-many`: the rule files are no rules of a
    /// policy. Want of memory never stands here.
    Forest { why: AssembleFault },
    /// `file-threshold <file> <got> of <need>`: too few of those who may sign the file did.
    FileThreshold { file: Octets, got: usize, need: u32 },
    /// `anchor`: there is no epoch yet, and the keys of the root role's persons are not the given ones.
    Anchor,
    /// `root-version <old> <new>`: the root is another, and its version is not the old one plus 1.
    RootVersion { old: u64, new: u64 },
    /// `root-succession <got> of <need>`: the root is another, and too few persons of the old root role signed it.
    RootSuccession { got: usize, need: u32 },
    /// `file-version <file>`: the rule file is another than the old one of its name, and its version is no higher.
    FileVersion { file: Octets },
    /// `file-dropped <file>`: the old rule file is gone, and the file that held its rule stays with no higher version.
    FileDropped { file: Octets },
}

/// What became of a policy entry: it is an epoch, or it does not take effect.
#[derive(Drop)]
pub enum EpochVerdict {
    Opened,
    Refused(PolicyFault),
}
