//! The words for what became of a block: why it retired, why its image isn't whole, and which packets are missing.

ghost use Rattle.std.specs.Prelude.{◌≡◌, ◌++◌, ◌&&◌, ◌||◌, [], map, codes, if◌then◌else◌, OnOk, OnErr};
ghost use Rattle.gev_report.specs.Pieces.{piece_text};
ghost use Rattle.gev_report.specs.AccountTexts.{behind_commas, listed, span_text, cause_word, why_text, lost_text};

use crate::piece::Piece;
use crate::writing::add;
use gev_types::{Cause, Lost, NoMemory, Reasons};

/// Adds why a block retired.
pub fn add_cause(out: &mut Vec<u8>, cause: Cause) -> Result<(), NoMemory>
    ensures text { OnOk result (out.new.items ≡ out.old.items ++ cause_word cause) }
    ensures unchanged { OnErr result (out.new.items ≡ out.old.items) }
{
    let word: &[u8] = match cause {
        Cause::Complete => b"complete",
        Cause::Old => b"old",
        Cause::Displaced => b"displaced",
        Cause::Stopped => b"stopped",
    };
    add(out, &[Piece::Text(word)])
}

/// The text where it holds.
fn text_if(holds: bool, text: &'static [u8]) -> Piece<'static>
    ensures { piece_text result ≡ (if holds then text.now else []) }
{
    if holds {
        Piece::Text(text)
    } else {
        Piece::Text(b"")
    }
}

/// A comma between what stands before and a word that holds.
fn comma_if(before: bool, holds: bool) -> Piece<'static>
    ensures { piece_text result ≡ (if before && holds then codes "," else []) }
{
    text_if(before && holds, b",")
}

/// Whether one of two holds.
fn either(one: bool, other: bool) -> bool
    ensures { result ≡ (one || other) }
{
    one || other
}

/// Adds the reasons that hold, joined by commas, or `-`.
pub fn add_why(out: &mut Vec<u8>, why: Reasons) -> Result<(), NoMemory>
    ensures text { OnOk result (out.new.items ≡ out.old.items ++ why_text why) }
    ensures unchanged { OnErr result (out.new.items ≡ out.old.items) }
{
    let two = either(why.no_leader, why.small);
    let three = either(two, why.no_trailer);
    let four = either(three, why.no_payload);
    add(
        out,
        &[
            text_if(why.no_leader, b"leader"),
            comma_if(why.no_leader, why.small),
            text_if(why.small, b"small"),
            comma_if(two, why.no_trailer),
            text_if(why.no_trailer, b"trailer"),
            comma_if(three, why.no_payload),
            text_if(why.no_payload, b"payloads"),
            comma_if(four, why.short),
            text_if(why.short, b"short"),
            text_if(!why.any(), b"-"),
        ],
    )
}

/// Adds a text and a span of numbers behind it.
fn add_span(out: &mut Vec<u8>, before: &[u8], first: u32, last: u32) -> Result<(), NoMemory>
    ensures text { OnOk result (out.new.items ≡ out.old.items ++ (before.now ++ span_text (first, last))) }
    ensures unchanged { OnErr result (out.new.items ≡ out.old.items) }
{
    let first_piece = Piece::Number(u64::from(first));
    if first == last {
        return add(out, &[Piece::Text(before), first_piece]);
    }
    let last_piece = Piece::Number(u64::from(last));
    add(
        out,
        &[
            Piece::Text(before),
            first_piece,
            Piece::Text(b"-"),
            last_piece,
        ],
    )
}

/// Adds the spans of these ranges, each behind a comma.
fn add_behind_commas(out: &mut Vec<u8>, ranges: &[(u32, u32)]) -> Result<(), NoMemory>
    ensures text { OnOk result (out.new.items ≡ out.old.items ++ behind_commas (map span_text ranges.now)) }
    ensures unchanged { OnErr result (out.new.items ≡ out.old.items) }
{
    let start = out.len();
    for range in ranges {
        if add_span(out, b",", range.0, range.1).is_err() {
            out.truncate(start);
            return Err(NoMemory);
        }
    }
    Ok(())
}

/// Adds the spans of these ranges, joined by commas, or `-` where there is none.
fn add_spans(out: &mut Vec<u8>, ranges: &[(u32, u32)]) -> Result<(), NoMemory>
    ensures text { OnOk result (out.new.items ≡ out.old.items ++ listed (map span_text ranges.now)) }
    ensures unchanged { OnErr result (out.new.items ≡ out.old.items) }
{
    match ranges {
        [] => add(out, &[Piece::Text(b"-")]),
        [range, behind @ ..] => {
            let start = out.len();
            add_span(out, b"", range.0, range.1)?;
            let added = add_behind_commas(out, behind);
            if added.is_err() {
                out.truncate(start);
            }
            added
        }
    }
}

/// Adds the first eight ranges of lost ids, and `..` where there are more.
pub fn add_ids(out: &mut Vec<u8>, lost: &Lost) -> Result<(), NoMemory>
    ensures text { OnOk result (out.new.items ≡ out.old.items ++ lost_text lost.now) }
    ensures unchanged { OnErr result (out.new.items ≡ out.old.items) }
{
    let start = out.len();
    add_spans(out, lost.first_ranges())?;
    let added = add(out, &[text_if(8 < lost.ranges, b",..")]);
    if added.is_err() {
        out.truncate(start);
    }
    added
}
