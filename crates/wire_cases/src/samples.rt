//! How the pixels of a format are drawn.

use frame_pictures::{pixel_bits, samples_of};
use std::alloc::Global;
use std::str::SplitWhitespace;

/// The name of a pixel format and its code in hexadecimal digits: how its pixels lie in a buffer, and how many bits each takes.
pub fn samples(alloc: Global, words: &mut SplitWhitespace<'_>) -> Option<String> {
    let _name = words.next()?;
    let code = u32::from_str_radix(words.next()?, 16).ok()?;
    match samples_of(code) {
        Some(samples) => format!(in alloc; "{samples:?}, {} bits", pixel_bits(samples)).ok(),
        None => String::from_str(alloc, "None").ok(),
    }
}
