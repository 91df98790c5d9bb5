use std::alloc::{AllocError, AllocFailed};
use std::io;
use thiserror::Error;

/// Memory ran out. The call that answers it has changed nothing, unless it says otherwise.
#[derive(Clone, Copy, Debug, PartialEq, Eq, Error)]
#[error("out of memory")]
pub struct NoMemory;

impl From<AllocError> for NoMemory {
    fn from(_error: AllocError) -> NoMemory {
        NoMemory
    }
}

impl<T: Drop> From<AllocFailed<T>> for NoMemory {
    fn from(_error: AllocFailed<T>) -> NoMemory {
        NoMemory
    }
}

impl From<NoMemory> for io::Error {
    fn from(_error: NoMemory) -> io::Error {
        io::Error::from(io::ErrorKind::OutOfMemory)
    }
}
