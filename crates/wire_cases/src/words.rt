//! What a row gives: numbers and bytes.

use std::alloc::Global;
use std::str::SplitWhitespace;

/// The next word as a number, in decimal digits or in hexadecimal ones behind `0x`.
pub fn number(words: &mut SplitWhitespace<'_>) -> Option<u64> {
    let word = words.next()?;
    match word.strip_prefix("0x") {
        Some(digits) => u64::from_str_radix(digits, 16).ok(),
        None => word.parse::<u64>().ok(),
    }
}

/// The next word as a number of 32 bits.
pub fn number32(words: &mut SplitWhitespace<'_>) -> Option<u32> {
    u32::try_from(number(words)?).ok()
}

/// The next word as a number of 16 bits.
pub fn number16(words: &mut SplitWhitespace<'_>) -> Option<u16> {
    u16::try_from(number(words)?).ok()
}

/// The next word as bytes.
pub fn bytes(alloc: Global, words: &mut SplitWhitespace<'_>) -> Option<Vec<u8>> {
    bytes_of(alloc, words.next()?)
}

/// A word as bytes: two hexadecimal digits each, `-` for none, and `PART+DIGITS*COUNT` for a part and then
/// the same bytes again and again.
pub fn bytes_of(alloc: Global, word: &str) -> Option<Vec<u8>> {
    if word == "-" {
        return Some(Vec::new(alloc));
    }
    match word.split_once('+') {
        Some((front, again)) => repeated(alloc, front, again),
        None => hex::decode(alloc, word).ok(),
    }
}

/// The bytes of `PART` and of `DIGITS*COUNT`.
fn repeated(alloc: Global, front: &str, again: &str) -> Option<Vec<u8>> {
    let (digits, count) = again.split_once('*')?;
    let count = count.parse::<u16>().ok()?;
    let piece = hex::decode(alloc, digits).ok()?;
    let mut bytes = hex::decode(alloc, front).ok()?;
    for _ in 0..count {
        bytes.extend_from_slice(piece.as_slice()).ok()?;
    }
    Some(bytes)
}
