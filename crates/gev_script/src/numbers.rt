ghost use Rattle.std.specs.Prelude.{◌≡◌, ◌≤◌, ◌^◌, ◌-◌, IfOk, IfSome, ◌<◌};
ghost use Rattle.std.specs.List.{list_all};
ghost use Rattle.std.specs.Char.{is_ascii_digit};
ghost use Rattle.gev_script.specs.Words.{read_map};
ghost use Rattle.gev_script.specs.Numbers.{is_number, value_of, bounded, number_in, is_hex_digit, is_hex, hex_of};
ghost use Rattle.gev_script.specs.Fields.{most_u8, most_u32};

use crate::kind::ScriptKind;
use std::str;

/// Whether the word is decimal digits, at least one, without a leading zero.
fn is_number(word: &[u8]) -> bool
    ensures { result ≡ is_number word.now }
{
    1 <= word.len() && (word.len() == 1 || word[0] != b'0') && are_digits(word)
}

fn are_digits(word: &[u8]) -> bool
    ensures { result ≡ list_all is_ascii_digit word.now }
{
    word.iter().all(|b| b.is_ascii_digit())
}

/// The number that a word is, if it is one of at most 64 bits.
fn value_of(word: &[u8]) -> Option<u64>
    ensures { result ≡ value_of word.now }
{
    if !is_number(word) {
        return None;
    }
    match str::from_utf8(word) {
        Ok(digits) => digits.parse().ok(),
        Err(_) => None,
    }
}

/// The number, if it is within these bounds.
pub fn number_in(low: u64, high: u64, word: &[u8]) -> Result<u64, ScriptKind>
    ensures value { result ≡ number_in low high word.now }
    ensures within { IfOk result (λ n. (low ≤ n) × (n ≤ high)) }
{
    match value_of(word) {
        Some(number) if low <= number && number <= high => Ok(number),
        _ => Err(ScriptKind::Number),
    }
}

/// The number of at most 32 bits that a word is.
pub(crate) fn u32_of(word: &[u8]) -> Result<u32, ScriptKind>
    ensures { result ≡ number_in 0 most_u32 word.now }
{
    Ok(number_in(0, 4_294_967_295, word)? as u32)
}

/// The number within these bounds of one byte that a word is.
pub(crate) fn u8_in(low: u8, high: u8, word: &[u8]) -> Result<u8, ScriptKind>
    ensures { result ≡ number_in low high word.now }
{
    Ok(number_in(u64::from(low), u64::from(high), word)? as u8)
}

fn is_hex_digit(b: u8) -> bool
    ensures { result ≡ is_hex_digit b }
{
    ((b'0' <= b) & (b <= b'9')) | ((b'a' <= b) & (b <= b'f'))
}

/// Whether all are lower-case hex digits. It looks at every one, with no branch on them, so that the
/// compiler tests many at once.
fn are_hex_digits(word: &[u8]) -> bool
    ensures { result ≡ list_all is_hex_digit word.now }
{
    let mut good = true;
    for b in word {
        good &= is_hex_digit(*b);
    }
    good
}

fn is_hex(word: &[u8]) -> bool
    ensures { result ≡ is_hex word.now }
{
    1 <= word.len() && word.len() % 2 == 0 && are_hex_digits(word)
}

/// The word, if it is lower-case hex digits, two for each byte, of at least one byte.
pub(crate) fn hex_of(word: &[u8]) -> Result<&[u8], ScriptKind>
    ensures { read_map (λ digits. digits.now) result ≡ hex_of word.now }
{
    if is_hex(word) {
        Ok(word)
    } else {
        Err(ScriptKind::Hex)
    }
}
