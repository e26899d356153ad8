//! The answer of a call that found no memory, one type for every crate.
//! Promise: a failed allocation, with or without a value that is given back, turns into it.

use std::alloc::{AllocError, AllocFailed};
use thiserror::Error;

/// The allocator had no memory for a call. It names no other cause, and what a call that gives it
/// leaves is said there.
#[derive(Clone, Copy, PartialEq, Eq, Debug, Error)]
#[error("out of memory")]
pub struct NoMemory;

impl From<AllocError> for NoMemory {
    fn from(_e: AllocError) -> NoMemory {
        NoMemory
    }
}

impl<T: Drop> From<AllocFailed<T>> for NoMemory {
    fn from(_e: AllocFailed<T>) -> NoMemory {
        NoMemory
    }
}
