//! Bytes as one number, so that a row of a test is plain.

/// What stands for a call that failed.
pub const FAILED: u64 = 9_999_999;

/// What stands for a look or a receive that finds nothing.
pub const NOTHING: u64 = 8_888_888;

/// Bytes from 1 to 9 as the decimal digits of a number.
pub fn digits(bytes: &[u8]) -> u64 {
    let mut number = 0u64;
    for byte in bytes {
        number = number.wrapping_mul(10).wrapping_add(u64::from(*byte));
    }
    number
}
