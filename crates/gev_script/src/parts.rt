ghost use Rattle.std.specs.Prelude.{◌≡◌, ◌∷◌, option_map};
ghost use Rattle.gev_script.specs.Words.{parts_of, parts_after, none_left, next_of, one_of, two_of, read_map};

use crate::kind::ScriptKind;
use memchr::memchr;

/// The part of a text before the separator, and what follows it, if it occurs.
pub(crate) fn first_part(separator: u8, text: &[u8]) -> (&[u8], Option<&[u8]>)
    ensures { parts_of separator text.now ≡ result.0.now ∷ parts_after separator (option_map (λ rest. rest.now) result.1) }
{
    match memchr(separator, text) {
        Some(place) => (&text[..place], Some(&text[place + 1..])),
        None => (text, None),
    }
}

/// Nothing, where no part is left.
pub(crate) fn no_part(separator: u8, rest: Option<&[u8]>) -> Result<(), ScriptKind>
    ensures { result ≡ none_left (parts_after separator (option_map (λ r. r.now) rest.entry)) }
{
    match rest {
        Some(_) => Err(ScriptKind::Word),
        None => Ok(()),
    }
}

/// The next part, and what follows it.
pub(crate) fn next_part(
    separator: u8,
    rest: Option<&[u8]>,
) -> Result<(&[u8], Option<&[u8]>), ScriptKind>
    ensures { read_map (λ found. (found.0.now, parts_after separator (option_map (λ r. r.now) found.1))) result
        ≡ next_of (parts_after separator (option_map (λ r. r.now) rest.entry)) }
{
    match rest {
        Some(text) => Ok(first_part(separator, text)),
        None => Err(ScriptKind::Word),
    }
}

/// The one part that is left.
pub(crate) fn one_part(separator: u8, rest: Option<&[u8]>) -> Result<&[u8], ScriptKind>
    ensures { read_map (λ part. part.now) result ≡ one_of (parts_after separator (option_map (λ r. r.now) rest.entry)) }
{
    let (part, rest) = next_part(separator, rest)?;
    no_part(separator, rest)?;
    Ok(part)
}

/// The two parts that are left.
pub(crate) fn two_parts(separator: u8, rest: Option<&[u8]>) -> Result<(&[u8], &[u8]), ScriptKind>
    ensures { read_map (λ both. (both.0.now, both.1.now)) result ≡ two_of (parts_after separator (option_map (λ r. r.now) rest.entry)) }
{
    let (first, rest) = next_part(separator, rest)?;
    let second = one_part(separator, rest)?;
    Ok((first, second))
}
