ghost use Rattle.std.specs.Prelude.{◌≡◌};
ghost use Rattle.gentl_types.specs.Codes.{code_of};

use crate::word::Word;
use std::fmt;
use thiserror::Error;

/// What a refused call found.
#[derive(Clone, Copy, Debug, PartialEq, Eq)]
pub enum Shown {
    /// A place's ownership word; or the stream's run word, which stands in `generation`, with state
    /// Held and size 0.
    Word(Word),
    /// The close mark: the stream was closed.
    Closed,
    /// No word: the number of a handle, or a place number above 14.
    NoHandle(u64),
}

impl fmt::Display for Shown {
    fn fmt<W: fmt::Write>(&self, f: &mut fmt::Formatter<W>) -> fmt::Result {
        match self {
            Shown::Word(word) => write!(f, "{word}"),
            Shown::Closed => write!(f, "closed"),
            Shown::NoHandle(number) => write!(f, "number {number}"),
        }
    }
}

/// Why a GenTL call was refused.
#[derive(Clone, Copy, Debug, PartialEq, Eq, Error)]
pub enum GcError {
    /// GC_ERR_RESOURCE_IN_USE: what the call needs is in use.
    #[error("resource in use: {0}")]
    ResourceInUse(Shown),
    /// GC_ERR_INVALID_HANDLE: what the caller named isn't there, or was closed.
    #[error("invalid handle: {0}")]
    InvalidHandle(Shown),
    /// GC_ERR_INVALID_PARAMETER: a parameter with this value is out of its range.
    #[error("invalid parameter: {0}")]
    InvalidParameter(u64),
    /// GC_ERR_TIMEOUT: nothing came from the moment `first` to the moment `last`, in milliseconds.
    #[error("timeout from {first} ms to {last} ms")]
    Timeout { first: u64, last: u64 },
    /// GC_ERR_ABORT: the wait was ended by a kill.
    #[error("abort")]
    Abort,
    /// GC_ERR_NOT_AVAILABLE: the call has no information with this number.
    #[error("not available: {0}")]
    NotAvailable(u32),
    /// GC_ERR_INVALID_INDEX: there is nothing with this index.
    #[error("invalid index: {0}")]
    InvalidIndex(u32),
    /// GC_ERR_RESOURCE_EXHAUSTED: every place, or every handle, is taken.
    #[error("resource exhausted")]
    ResourceExhausted,
    /// GC_ERR_OUT_OF_MEMORY: memory ran out.
    #[error("out of memory")]
    OutOfMemory,
    /// GC_ERR_BUSY: a buffer that is to be taken back isn't the application's now; its word.
    #[error("busy: {0}")]
    Busy(Word),
}

impl GcError {
    /// The error's number in GenTL's list of error codes.
    pub fn code(&self) -> i32
        ensures { result ≡ code_of self.now }
    {
        match self {
            GcError::ResourceInUse(_) => -1004,
            GcError::InvalidHandle(_) => -1006,
            GcError::InvalidParameter(_) => -1009,
            GcError::Timeout { .. } => -1011,
            GcError::Abort => -1012,
            GcError::NotAvailable(_) => -1014,
            GcError::InvalidIndex(_) => -1017,
            GcError::ResourceExhausted => -1020,
            GcError::OutOfMemory => -1021,
            GcError::Busy(_) => -1022,
        }
    }
}
