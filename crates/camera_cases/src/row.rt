//! The words of a row, which single blanks part. Numbers are decimal, or hex behind `0x`.

use crate::fault::Fault;
use lossy_queue::Rates;
use std::alloc::Global;

/// The word at this place, from 0 on; the empty one where there is none.
pub fn word(row: &str, place: usize) -> &str {
    row.split_whitespace().nth(place).unwrap_or("")
}

/// The number at this place.
pub fn number(row: &str, place: usize) -> Result<u64, Fault> {
    let text = word(row, place);
    let read = match text.strip_prefix("0x") {
        Some(digits) => u64::from_str_radix(digits, 16),
        None => text.parse::<u64>(),
    };
    read.map_err(|_error| Fault::NotUnderstood)
}

/// The number of 32 bits at this place.
pub fn short_number(row: &str, place: usize) -> Result<u32, Fault> {
    u32::try_from(number(row, place)?).map_err(|_error| Fault::NotUnderstood)
}

/// The number of 16 bits at this place.
pub fn small_number(row: &str, place: usize) -> Result<u16, Fault> {
    u16::try_from(number(row, place)?).map_err(|_error| Fault::NotUnderstood)
}

/// The number of 8 bits at this place.
pub fn count(row: &str, place: usize) -> Result<u8, Fault> {
    u8::try_from(number(row, place)?).map_err(|_error| Fault::NotUnderstood)
}

/// The bytes whose hex digits stand at this place.
pub fn bytes(alloc: Global, row: &str, place: usize) -> Result<Vec<u8>, Fault> {
    Ok(hex::decode(alloc, word(row, place))?)
}

/// How often datagrams are lost, repeated and swapped, by the words of a row.
pub fn rates(row: &str) -> Result<Rates, Fault> {
    Ok(Rates {
        loss: small_number(row, 3)?,
        repeat: small_number(row, 4)?,
        swap: small_number(row, 5)?,
    })
}
