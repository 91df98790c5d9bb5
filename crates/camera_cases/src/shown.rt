//! Answers as text.

use crate::fault::Fault;
use sha2::{Digest, Sha256};
use std::alloc::Global;
use std::fmt::Debug;

/// The longest bytes that are shown as hex digits.
const MOST_SHOWN: usize = 64;

/// A value as a term.
pub fn told<T: Debug + Drop>(alloc: Global, value: T) -> Result<String, Fault> {
    Ok(format!(in alloc; "{value:?}")?)
}

/// Bytes in hex, or where they are long their number and their SHA-256 digest.
pub fn shown(alloc: Global, bytes: &[u8]) -> Result<String, Fault> {
    if bytes.len() <= MOST_SHOWN {
        return Ok(hex::encode(alloc, bytes)?);
    }
    let digest = hex::encode(alloc, Sha256::digest(bytes).as_slice())?;
    Ok(format!(in alloc; "{} bytes {digest}", bytes.len())?)
}
