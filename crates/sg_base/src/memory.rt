//! Out of memory.
ghost use Rattle.std.specs.Prelude.{◌≡◌};

use std::alloc::{AllocError, AllocFailed};

/// The error of a call that ran out of memory. No contract says when that happens.
#[derive(Clone, Copy, Debug)]
pub struct Memory;

impl From<AllocError> for Memory {
    fn from(_: AllocError) -> Self {
        Memory
    }
}

impl<T: Drop> From<AllocFailed<T>> for Memory {
    fn from(_: AllocFailed<T>) -> Self {
        Memory
    }
}
