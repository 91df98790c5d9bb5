use hex::FromHexError;
use std::alloc::AllocError;

/// Why a row has no answer.
#[derive(Clone, Copy, Debug, PartialEq, Eq)]
pub enum Fault {
    /// Its words aren't those of a call.
    NotUnderstood,
    /// The call has a condition that doesn't hold now.
    NotNow,
    /// Memory ran out.
    NoMemory,
}

impl From<AllocError> for Fault {
    fn from(_error: AllocError) -> Fault {
        Fault::NoMemory
    }
}

impl From<gev_types::NoMemory> for Fault {
    fn from(_error: gev_types::NoMemory) -> Fault {
        Fault::NoMemory
    }
}

impl From<FromHexError> for Fault {
    fn from(_error: FromHexError) -> Fault {
        Fault::NotUnderstood
    }
}
