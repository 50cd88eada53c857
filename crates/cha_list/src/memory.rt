//! Want of memory.

use std::alloc::{AllocError, AllocFailed};

/// The allocator refused memory. Nothing else is ever reported by this value.
#[derive(Clone, Copy, Debug, PartialEq, Eq)]
pub struct NoMemory;

impl From<AllocError> for NoMemory {
    fn from(_refused: AllocError) -> NoMemory {
        NoMemory
    }
}

impl<T: Drop> From<AllocFailed<T>> for NoMemory {
    fn from(_refused: AllocFailed<T>) -> NoMemory {
        NoMemory
    }
}

/// A refused `push` hands its item back; whoever has no use for it lets it go.
impl<T: Drop> From<(T, NoMemory)> for NoMemory {
    fn from(refused: (T, NoMemory)) -> NoMemory {
        let (_item, no_memory) = refused;
        no_memory
    }
}
