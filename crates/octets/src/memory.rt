//! Want of memory, the one refusal that no contract ties to a cause.

use std::alloc::{AllocError, AllocFailed};

/// There was not enough memory. What was lent for writing is as before.
#[derive(Debug, Clone, Copy, PartialEq, Eq, Drop)]
pub struct Memory;

impl From<AllocError> for Memory {
    fn from(_error: AllocError) -> Memory {
        Memory
    }
}

impl<T: Drop> From<AllocFailed<T>> for Memory {
    fn from(_error: AllocFailed<T>) -> Memory {
        Memory
    }
}
