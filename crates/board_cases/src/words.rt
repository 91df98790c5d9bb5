//! The words of a row: names and plain numbers.

use gentl_types::BufferId;

/// The word at this position of a row.
pub fn word<'a>(words: &[&'a str], at: usize) -> Option<&'a str> {
    words.get(at).copied()
}

/// The number at this position of a row.
pub fn number(words: &[&str], at: usize) -> Option<u64> {
    words.get(at)?.parse::<u64>().ok()
}

/// The same, of four bytes.
pub fn long(words: &[&str], at: usize) -> Option<u32> {
    u32::try_from(number(words, at)?).ok()
}

/// The same, of one byte.
pub fn byte(words: &[&str], at: usize) -> Option<u8> {
    u8::try_from(number(words, at)?).ok()
}

/// A place and a generation.
pub fn buffer_id(words: &[&str], at: usize) -> Option<BufferId> {
    let place = byte(words, at)?;
    let generation = long(words, at.checked_add(1)?)?;
    Some(BufferId { place, generation })
}
