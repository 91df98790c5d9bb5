ghost use Rattle.std.specs.Prelude.{◌≡◌, ◌≤◌, option_map, IfOk};
ghost use Rattle.std.specs.Str.{bytes_eq};
ghost use Rattle.gev_script.specs.Words.{read_map, refused_as, parts_of, parts_after};
ghost use Rattle.gev_script.specs.Fields.{most_u32, most_u64, number_after, next_number, id_parts, id_of, id_after, parent_of, after_word, most_p};

use crate::kind::ScriptKind;
use crate::numbers::{number_in, u8_in, u32_of};
use crate::parts::{next_part, one_part, two_parts};
use gev_types::{MAX_PAYLOAD_SIZE, MAX_RECEIVED_PAYLOAD_SIZE};

/// What separates words.
pub(crate) const SPACE: u8 = b' ';

/// Whether the word is just this one.
pub(crate) fn is(word: &[u8], wanted: &[u8]) -> bool
    ensures { result ≡ bytes_eq word.now wanted.now }
{
    word == wanted
}

/// The most bytes of a payload packet in a script of this version.
pub(crate) fn most_p(version: u64) -> u64
    ensures value { result ≡ most_p version }
    ensures few { result ≤ 8964 }
{
    if version == 2 {
        u64::from(MAX_RECEIVED_PAYLOAD_SIZE)
    } else {
        u64::from(MAX_PAYLOAD_SIZE)
    }
}

/// The one word that is left, as a number.
pub(crate) fn number_after(rest: Option<&[u8]>) -> Result<u64, ScriptKind>
    ensures { result ≡ number_after most_u64 (parts_after 32 (option_map (λ r. r.now) rest.entry)) }
{
    let word = one_part(SPACE, rest)?;
    number_in(0, u64::MAX, word)
}

/// The one word that is left, as a number of at most 32 bits.
pub(crate) fn u32_after(rest: Option<&[u8]>) -> Result<u32, ScriptKind>
    ensures { result ≡ number_after most_u32 (parts_after 32 (option_map (λ r. r.now) rest.entry)) }
{
    let word = one_part(SPACE, rest)?;
    u32_of(word)
}

/// The number that the next word is, within these bounds, and what follows it.
pub(crate) fn next_number(
    low: u64,
    high: u64,
    rest: Option<&[u8]>,
) -> Result<(u64, Option<&[u8]>), ScriptKind>
    ensures value { read_map (λ found. (found.0, parts_after 32 (option_map (λ r. r.now) found.1))) result
        ≡ next_number low high (parts_after 32 (option_map (λ r. r.now) rest.entry)) }
    ensures within { IfOk result (λ found. (low ≤ found.0) × (found.0 ≤ high)) }
{
    let (word, rest) = next_part(SPACE, rest)?;
    let number = number_in(low, high, word)?;
    Ok((number, rest))
}

fn id_parts(rest: Option<&[u8]>) -> Result<(u8, u32), ScriptKind>
    ensures { result ≡ id_parts (parts_after 46 (option_map (λ r. r.now) rest.entry)) }
{
    let (place, generation) = two_parts(b'.', rest)?;
    let place = u8_in(0, u8::MAX, place)?;
    let generation = u32_of(generation)?;
    Ok((place, generation))
}

/// A buffer id, `<place>.<generation>`.
pub(crate) fn id_of(word: &[u8]) -> Result<(u8, u32), ScriptKind>
    ensures { result ≡ id_of word.now }
{
    match id_parts(Some(word)) {
        Ok(id) => Ok(id),
        Err(_) => Err(ScriptKind::Number),
    }
}

/// The one word that is left, as a buffer id.
pub(crate) fn id_after(rest: Option<&[u8]>) -> Result<(u8, u32), ScriptKind>
    ensures { result ≡ id_after (parts_after 32 (option_map (λ r. r.now) rest.entry)) }
{
    let word = one_part(SPACE, rest)?;
    id_of(word)
}

/// A handle's serial, or `-` for none.
pub(crate) fn parent_of(word: &[u8]) -> Result<Option<u64>, ScriptKind>
    ensures { result ≡ parent_of word.now }
{
    if is(word, b"-") {
        return Ok(None);
    }
    let serial = number_in(0, u64::MAX, word)?;
    Ok(Some(serial))
}

/// What follows the word that has to stand first.
pub(crate) fn after_word<'a>(
    wanted: &[u8],
    rest: Option<&'a [u8]>,
) -> Result<Option<&'a [u8]>, ScriptKind>
    ensures { read_map (λ found. parts_after 32 (option_map (λ r. r.now) found)) result
        ≡ after_word wanted.now (parts_after 32 (option_map (λ r. r.now) rest.entry)) }
{
    let (word, rest) = next_part(SPACE, rest)?;
    if is(word, wanted) {
        Ok(rest)
    } else {
        Err(ScriptKind::Word)
    }
}
