//! The calls that change what a crash may leave.

/// A call of a disk in memory that was done.
#[derive(Debug, Clone, Copy, PartialEq, Eq)]
pub enum DiskCall {
    /// So many bytes were written at this offset.
    Write { at: usize, len: usize },
    Sync,
}
