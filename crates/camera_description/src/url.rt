//! The URL of a description, read.

ghost use Rattle.std.specs.Prelude.{◌≡◌, ◌≤◌, length, position, Some, IfSome};
ghost use Rattle.std.specs.Option.{option_copied};
ghost use Rattle.camera_description.specs.Url.{ends_url, url_text, behind_scheme, has_prefix, without_prefix, padded, number_of, number_in, located, with_address, location_in};
ghost use Rattle.camera_description.specs.Url.{IsWithin};

use crate::location::Location;
use byteorder::{BigEndian, ByteOrder};
use camera_words::{before_byte, behind_byte};

/// The scheme of a description that lies in its camera, in lower case.
const SCHEME: [u8; 6] = *b"local:";

/// The most hex digits of a number.
const MOST_DIGITS: usize = 8;

/// Where the URL ends, if it's before the last byte.
fn url_end(bytes: &[u8]) -> Option<usize>
    ensures { result ≡ position ends_url bytes.now }
{
    bytes.iter().position(|byte| *byte == 0 || *byte == b'?')
}

/// The bytes of the URL.
fn url_text(bytes: &[u8]) -> &[u8]
    ensures { result.now ≡ url_text bytes.now }
{
    match url_end(bytes) {
        Some(end) => &bytes[..end],
        None => bytes,
    }
}

/// What follows the scheme, if it's `Local:` in either case.
fn behind_scheme(text: &[u8]) -> Option<&[u8]>
    ensures { option_copied result ≡ behind_scheme text.now }
{
    if text.len() < SCHEME.len() {
        return None;
    }
    if !text[..6].eq_ignore_ascii_case(&SCHEME) {
        return None;
    }
    Some(&text[6..])
}

/// Whether the number begins with `0x` or `0X`.
fn has_prefix(word: &[u8]) -> bool
    ensures { result ≡ has_prefix word.now }
{
    2 <= word.len() && word[0] == b'0' && (word[1] == b'x' || word[1] == b'X')
}

/// The digits of a number.
fn without_prefix(word: &[u8]) -> &[u8]
    ensures { result.now ≡ without_prefix word.now }
{
    if has_prefix(word) { &word[2..] } else { word }
}

/// The digits with zeros in front, so that there are eight.
fn padded(digits: &[u8]) -> [u8; MOST_DIGITS]
    requires { length digits.now ≤ 8 }
    ensures { result ≡ padded digits.now }
{
    let mut filled = *b"00000000";
    filled[MOST_DIGITS - digits.len()..].copy_from_slice(digits);
    filled
}

/// The number that 1 to 8 hex digits spell.
fn number_of(digits: &[u8]) -> Option<u32>
    ensures { result ≡ number_of digits.now }
{
    if digits.is_empty() || digits.len() > MOST_DIGITS {
        return None;
    }
    let filled = padded(digits);
    let mut bytes = [0; 4];
    match hex::decode_to_slice(&filled, &mut bytes) {
        Ok(()) => Some(BigEndian::read_u32(&bytes)),
        Err(_) => None,
    }
}

/// The number that 1 to 8 hex digits spell, with `0x` before them or not.
fn number_in(word: &[u8]) -> Option<u32>
    ensures { result ≡ number_in word.now }
{
    number_of(without_prefix(word))
}

/// The place of so many bytes, if they lie within the camera's memory.
fn located(address: Option<u32>, size: Option<u32>) -> Option<Location>
    ensures value { result ≡ located address size }
    ensures within { IfSome result IsWithin }
{
    let Some(address) = address else {
        return None;
    };
    let Some(size) = size else {
        return None;
    };
    if size == 0 || u64::from(address) + u64::from(size) > 4_294_967_296 {
        return None;
    }
    Some(Location { address, size })
}

/// The place that the fields behind the name tell.
fn with_address(rest: &[u8]) -> Option<Location>
    ensures value { result ≡ with_address (Some rest.now) }
    ensures within { IfSome result IsWithin }
{
    match behind_byte(b';', rest) {
        Some(word) => located(number_in(before_byte(b';', rest)), number_in(word)),
        None => None,
    }
}

/// Where the description lies by the bytes of a URL's register, if it lies in the camera (GigE Vision 2.0, first and
/// second URL): `Local:<name>;<address>;<length>`.
pub fn location_in(bytes: &[u8]) -> Option<Location>
    ensures value { result ≡ location_in bytes.now }
    ensures within { IfSome result IsWithin }
{
    let Some(fields) = behind_scheme(url_text(bytes)) else {
        return None;
    };
    match behind_byte(b';', fields) {
        Some(rest) => with_address(rest),
        None => None,
    }
}
