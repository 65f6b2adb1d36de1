use std::alloc::{AllocError, AllocFailed};
use thiserror::Error;

/// Memory was wanting. This is the one answer that no contract ties to a cause.
///
/// It comes from a refused allocation, or from [`Memory::past_limit`], and from nothing else: the field is private, so
/// that no crate above can make one for a branch that it only believes impossible.
#[derive(Clone, Copy, Debug, Drop, PartialEq, Eq, Error)]
#[error("out of memory")]
pub struct Memory {
    _wanting: (),
}

impl Memory {
    /// A count would pass its type, or a length would pass a limit of the formats. Both are answered as want of memory:
    /// no input within the limits comes to them.
    pub fn past_limit() -> Memory {
        Memory { _wanting: () }
    }
}

impl From<AllocError> for Memory {
    fn from(_error: AllocError) -> Memory {
        Memory { _wanting: () }
    }
}

impl<T: Drop> From<AllocFailed<T>> for Memory {
    fn from(_error: AllocFailed<T>) -> Memory {
        Memory { _wanting: () }
    }
}
