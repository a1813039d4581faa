//! Reading the key file and the log, with which each command that adds an entry begins.

ghost use Rattle.std.specs.Prelude.{◌≡◌, ◌≤◌, ◌<◌, ◌+◌, ℕ, List, length, IfOk, IfErr, Some};
ghost use Rattle.octets.specs.Causes.{HasCause};
ghost use Rattle.git_object.specs.Repository.{Repository};
ghost use Rattle.keeper_api.specs.Undisturbed.{Undisturbed};
ghost use Rattle.edge_io.specs.Disk.{IsKept};
ghost use Rattle.edge_io.specs.Moments.{LeavesOnly};
ghost use Rattle.lms_keys.specs.HssSecret.{signature_len};
ghost use Rattle.leaf_journal.specs.Signing.{IsLoaded};
ghost use Rattle.rsl_chain.specs.Logs.{IsLogOf};
ghost use Rattle.log_appending.specs.Opening.{IsAnyLength, WhyUnread, log_fault, opened_fault, unread_disk};
ghost use Rattle.log_appending.specs.Opening.{unread_keeper};

use edge_io::Disk;
use git_object::ObjectId;
use keeper_api::Keeper;
use leaf_journal::{OpenFault, OpenKey, open_key};
use rsl_chain::{Log, LogFault};
use std::alloc::Global;

/// Why the key file, the log, or what else a command reads was not read. The key file and the store are as they were.
#[derive(Clone, Copy, Debug, PartialEq, Eq)]
pub enum ReadingFault {
    /// What the disk holds is no key file.
    KeyFile,
    DiskFailed,
    /// The log breaks at this commit.
    LogBroken { id: ObjectId },
    /// The log has 1,000,000 entries.
    TooLarge,
    KeeperFailed,
    Memory,
}

/// A key file that is open, and the log of a store.
#[derive(Drop)]
pub struct OpenLog {
    pub key: OpenKey,
    pub log: Log,
}

fn of_key(fault: OpenFault) -> ReadingFault
    ensures { result ≡ opened_fault fault }
{
    match fault {
        OpenFault::KeyFile => ReadingFault::KeyFile,
        OpenFault::DiskFailed => ReadingFault::DiskFailed,
        OpenFault::Memory => ReadingFault::Memory,
    }
}

/// Why nothing was read, where the log was not.
pub fn unread_log(fault: LogFault) -> ReadingFault
    ensures { result ≡ log_fault fault }
{
    match fault {
        LogFault::Broken { id } => ReadingFault::LogBroken { id },
        LogFault::Failed => ReadingFault::KeeperFailed,
        LogFault::Memory => ReadingFault::Memory,
    }
}

/// Opens the key file that a disk holds, and then loads the log of a store, however many entries it has. `KeyFile`
/// comes exactly where there is no key file, and `LogBroken` where there is one and the log breaks. It reads the commit
/// of each entry once.
pub fn open_whole_log<R: Keeper, D: Disk>(
    alloc: Global,
    keeper: &mut R,
    disk: &mut D,
) -> Result<OpenLog, ReadingFault>
    ensures loaded { IfOk result (λ opened. (file : List ℕ) → D.seen disk.new ≡ Some file
        → IsLoaded file opened.key.signer) }
    ensures room { IfOk result (λ opened. length opened.key.room.items ≡ signature_len opened.key.signer.secret) }
    ensures log { IfOk result (λ opened. (r : Repository) → R.content keeper.new ≡ Some r → IsLogOf r opened.log.ids) }
    ensures few { IfOk result (λ opened. length opened.log.ids ≤ 1000000) }
    ensures why { IfErr result (WhyUnread R.Keeper D.Disk keeper.new disk.new) }
    ensures any_length { IfErr result IsAnyLength }
    ensures same { Undisturbed R.Keeper keeper.old keeper.new }
    ensures kept { IsKept (D.seen disk.old) (D.seen disk.new) (D.may_leave disk.old) (D.may_leave disk.new) }
    ensures any_moment { LeavesOnly D.moment D.left_since disk.old disk.new (D.may_leave disk.old) }
    ensures keeper { HasCause unread_keeper (R.faults keeper.old) (R.faults keeper.new) result }
    ensures disk { HasCause unread_disk (D.faults disk.old) (D.faults disk.new) result }
    ensures reads { R.reads keeper.new ≤ R.reads keeper.old + 1000000 }
    ensures each { IfOk result (λ opened. R.reads keeper.new ≤ R.reads keeper.old + length opened.log.ids) }
{
    let key = match open_key(alloc, disk) {
        Ok(key) => key,
        Err(fault) => return Err(of_key(fault)),
    };
    let log = match Log::load(alloc, keeper) {
        Ok(log) => log,
        Err(fault) => return Err(unread_log(fault)),
    };
    Ok(OpenLog { key, log })
}

/// Opens the key file that a disk holds, and then loads the log of a store. `KeyFile` comes exactly where there is no
/// key file, `LogBroken` where there is one and the log breaks, and `TooLarge` where there is one and the log has
/// 1,000,000 entries. It reads the commit of each entry once.
pub fn open_log<R: Keeper, D: Disk>(
    alloc: Global,
    keeper: &mut R,
    disk: &mut D,
) -> Result<OpenLog, ReadingFault>
    ensures loaded { IfOk result (λ opened. (file : List ℕ) → D.seen disk.new ≡ Some file
        → IsLoaded file opened.key.signer) }
    ensures room { IfOk result (λ opened. length opened.key.room.items ≡ signature_len opened.key.signer.secret) }
    ensures log { IfOk result (λ opened. (r : Repository) → R.content keeper.new ≡ Some r → IsLogOf r opened.log.ids) }
    ensures short { IfOk result (λ opened. length opened.log.ids < 1000000) }
    ensures why { IfErr result (WhyUnread R.Keeper D.Disk keeper.new disk.new) }
    ensures same { Undisturbed R.Keeper keeper.old keeper.new }
    ensures kept { IsKept (D.seen disk.old) (D.seen disk.new) (D.may_leave disk.old) (D.may_leave disk.new) }
    ensures any_moment { LeavesOnly D.moment D.left_since disk.old disk.new (D.may_leave disk.old) }
    ensures keeper { HasCause unread_keeper (R.faults keeper.old) (R.faults keeper.new) result }
    ensures disk { HasCause unread_disk (D.faults disk.old) (D.faults disk.new) result }
    ensures reads { R.reads keeper.new ≤ R.reads keeper.old + 1000000 }
    ensures each { IfOk result (λ opened. R.reads keeper.new ≤ R.reads keeper.old + length opened.log.ids) }
{
    let opened = match open_whole_log(alloc, keeper, disk) {
        Ok(opened) => opened,
        Err(fault) => return Err(fault),
    };
    if opened.log.ids.len() >= 1000000 {
        return Err(ReadingFault::TooLarge);
    }
    Ok(opened)
}
