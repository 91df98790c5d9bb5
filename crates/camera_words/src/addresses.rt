ghost use Rattle.std.specs.Prelude.{◌≡◌, Some};
ghost use Rattle.camera_words.specs.Parts.{before_byte, behind_byte};
ghost use Rattle.camera_words.specs.Addresses.{dot, byte_in, joined, behind_third, behind_second, address_in};

use crate::parts::{before_byte, behind_byte};
use byteorder::{BigEndian, ByteOrder};
use gev_script::number_in;

/// The number of 0 to 255 that a word is.
fn byte_in(word: &[u8]) -> Option<u8>
    ensures { result ≡ byte_in word.now }
{
    match number_in(0, 255, word) {
        Ok(number) => Some(number as u8),
        Err(_) => None,
    }
}

/// The number whose bytes, the highest first, are these.
fn joined(a: Option<u8>, b: Option<u8>, c: Option<u8>, d: Option<u8>) -> Option<u32>
    ensures { result ≡ joined a b c d }
{
    match (a, b, c, d) {
        (Some(first), Some(second), Some(third), Some(fourth)) => {
            Some(BigEndian::read_u32(&[first, second, third, fourth]))
        }
        _ => None,
    }
}

/// The address whose first two numbers are these words.
fn behind_second(first: &[u8], second: &[u8], third: &[u8]) -> Option<u32>
    ensures { result ≡ behind_third first.now second.now third.now (behind_byte dot third.now) }
{
    match behind_byte(b'.', third) {
        Some(fourth) => joined(
            byte_in(first),
            byte_in(second),
            byte_in(before_byte(b'.', third)),
            byte_in(fourth),
        ),
        None => None,
    }
}

/// The address whose first number is this word.
fn behind_first(first: &[u8], second: &[u8]) -> Option<u32>
    ensures { result ≡ behind_second first.now second.now (behind_byte dot second.now) }
{
    match behind_byte(b'.', second) {
        Some(third) => behind_second(first, before_byte(b'.', second), third),
        None => None,
    }
}

/// The IPv4 address that a word is, most significant byte first: four decimal numbers of 0 to 255 without leading
/// zeros, joined by dots.
pub fn address_in(word: &[u8]) -> Option<u32>
    ensures { result ≡ address_in word.now }
{
    match behind_byte(b'.', word) {
        Some(second) => behind_first(before_byte(b'.', word), second),
        None => None,
    }
}
