//! What the source gives.

use std::alloc::{AllocError, Global};
use std::io;

/// Does what the row says to the input. Another row answers `false`.
pub(crate) fn add_row(
    alloc: Global,
    input: &mut Vec<u8>,
    kind: &str,
    rest: &str,
) -> io::Result<bool> {
    match kind {
        "#" => input.clear(),
        "<" => add_line(input, rest)?,
        "x" => return add_bytes(alloc, input, rest),
        _ => return Ok(false),
    }
    Ok(true)
}

/// Adds a line.
fn add_line(input: &mut Vec<u8>, line: &str) -> Result<(), AllocError> {
    input.extend_from_slice(line.as_bytes())?;
    input.push(b'\n')?;
    Ok(())
}

/// The number that the text is; another text is 0.
pub(crate) fn number(text: &str) -> u64 {
    text.parse::<u64>().unwrap_or(0)
}

/// Adds bytes so many times as the count before their hex digits says.
fn add_bytes(alloc: Global, input: &mut Vec<u8>, text: &str) -> io::Result<bool> {
    let (count, digits) = text.split_once(' ').unwrap_or((text, ""));
    let Ok(bytes) = hex::decode(alloc, digits) else {
        return Ok(false);
    };
    for _ in 0..number(count) {
        input.extend_from_slice(bytes.as_slice())?;
    }
    Ok(true)
}
