//! A disk of one of two kinds.

ghost use Rattle.keeper_layers.specs.Disks.{by_kind, left_by_kind, may_by_kind};
ghost use Rattle.keeper_layers.specs.Disks.{counts_of_kind, only_of_kind, stays_of_kind, told_of_kind};

use edge_io::{Disk, Failed};

/// A disk of one of two kinds. Each call is that of the disk that it is, and each promise is that disk's: what a read
/// gives, what a crash may leave, its moments and its faults.
#[derive(Drop)]
pub enum EitherDisk<A, B> {
    First(A),
    Second(B),
}

impl<A: Disk, B: Disk> Disk for EitherDisk<A, B> {
    ghost seen = { by_kind A.seen B.seen };

    ghost may_leave = { may_by_kind A.may_leave B.may_leave };

    ghost moment = { by_kind A.moment B.moment };

    ghost left_since = { left_by_kind A.left_since B.left_since };

    ghost faults = { by_kind A.faults B.faults };

    fn len(&mut self) -> Result<u64, Failed> {
        match self {
            EitherDisk::First(disk) => disk.len(),
            EitherDisk::Second(disk) => disk.len(),
        }
    }

    fn read(&mut self, at: u64, out: &mut [u8]) -> Result<(), Failed> {
        match self {
            EitherDisk::First(disk) => disk.read(at, out),
            EitherDisk::Second(disk) => disk.read(at, out),
        }
    }

    fn write_at(&mut self, at: u64, bytes: &[u8]) -> Result<(), Failed> {
        match self {
            EitherDisk::First(disk) => disk.write_at(at, bytes),
            EitherDisk::Second(disk) => disk.write_at(at, bytes),
        }
    }

    fn sync(&mut self) -> Result<(), Failed> {
        match self {
            EitherDisk::First(disk) => disk.sync(),
            EitherDisk::Second(disk) => disk.sync(),
        }
    }

    ghost counts_now = { counts_of_kind A.moment A.may_leave A.left_since B.moment B.may_leave B.left_since
        A.counts_now B.counts_now };

    ghost only_now = { only_of_kind A.moment A.may_leave A.left_since B.moment B.may_leave B.left_since
        A.only_now B.only_now };

    ghost seen_may_stay = { stays_of_kind A.seen A.may_leave B.seen B.may_leave A.seen_may_stay B.seen_may_stay };

    ghost told = { told_of_kind A.seen A.may_leave B.seen B.may_leave A.told B.told };
}
