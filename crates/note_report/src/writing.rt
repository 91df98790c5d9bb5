//! Lines of notes from their parts.

ghost use Rattle.std.specs.Prelude.{◌≡◌, ◌++◌, OnOk};
ghost use Rattle.std.specs.List.{flat_map};
ghost use Rattle.script_trace.specs.Texts.{hex_text, id_text, id_or_none, number_or_none, flag_text, words_line};
ghost use Rattle.gev_report.specs.AccountTexts.{span_text};
ghost use Rattle.note_report.specs.Pieces.{piece_text, packet_text, status_text, front_text};

use crate::at::At;
use crate::basics::add_basics;
use crate::piece::{Basic, Piece};
use byteorder::{BigEndian, ByteOrder};
use gentl_types::BufferId;
use gev_report::{add_cause, add_ids, add_why};
use gev_types::NoMemory;

/// Adds the line with these words.
pub(crate) fn add_note(at: At, words: &[Piece<'_>], out: &mut Vec<u8>) -> Result<(), NoMemory>
    ensures { OnOk result (out.new.items ≡ out.old.items ++ words_line at.line at.moment (flat_map piece_text words.now)) }
{
    add_front(at, out)?;
    add(out, words)?;
    add_basics(out, &[Basic::Text(b"\n")])
}

/// Adds what stands before a note's words.
fn add_front(at: At, out: &mut Vec<u8>) -> Result<(), NoMemory>
    ensures { OnOk result (out.new.items ≡ out.old.items ++ front_text at.line at.moment) }
{
    add_basics(
        out,
        &[
            Basic::Text(b"# "),
            Basic::Number(u64::from(at.line)),
            Basic::Text(b" "),
            Basic::Number(at.moment),
            Basic::Text(b" "),
        ],
    )
}

/// Adds these parts, one after the other.
fn add(out: &mut Vec<u8>, pieces: &[Piece<'_>]) -> Result<(), NoMemory>
    ensures { OnOk result (out.new.items ≡ out.old.items ++ flat_map piece_text pieces.now) }
{
    for piece in pieces {
        add_piece(out, *piece)?;
    }
    Ok(())
}

/// Adds a part.
fn add_piece(out: &mut Vec<u8>, piece: Piece<'_>) -> Result<(), NoMemory>
    ensures { OnOk result (out.new.items ≡ out.old.items ++ piece_text piece.entry) }
{
    match piece {
        Piece::Text(text) => add_basics(out, &[Basic::Text(text)]),
        Piece::Number(number) => add_basics(out, &[Basic::Number(number)]),
        Piece::NumberOrNone(number) => add_number_or_none(out, number),
        Piece::Flag(flag) => add_flag(out, flag),
        Piece::Packet(word, block, id) => add_packet(out, word, block, id),
        Piece::Status(status) => add_status(out, status),
        Piece::Short(number) => add_short(out, number),
        Piece::Long(number) => add_long(out, number),
        Piece::Span(first, last) => add_span(out, first, last),
        Piece::Id(id) => add_id(out, id),
        Piece::IdOrNone(id) => add_id_or_none(out, id),
        Piece::Cause(cause) => add_cause(out, cause),
        Piece::Why(why) => add_why(out, why),
        Piece::Ids(lost) => add_ids(out, lost),
    }
}

/// Adds a number, or `none`.
fn add_number_or_none(out: &mut Vec<u8>, number: Option<u64>) -> Result<(), NoMemory>
    ensures { OnOk result (out.new.items ≡ out.old.items ++ number_or_none number) }
{
    match number {
        Some(number) => add_basics(out, &[Basic::Number(number)]),
        None => add_basics(out, &[Basic::Text(b"none")]),
    }
}

/// Adds 1 or 0.
fn add_flag(out: &mut Vec<u8>, flag: bool) -> Result<(), NoMemory>
    ensures { OnOk result (out.new.items ≡ out.old.items ++ flag_text flag) }
{
    if flag {
        add_basics(out, &[Basic::Text(b"1")])
    } else {
        add_basics(out, &[Basic::Text(b"0")])
    }
}

/// Adds a word, and a packet's block and id.
fn add_packet(out: &mut Vec<u8>, word: &[u8], block: u64, id: u32) -> Result<(), NoMemory>
    ensures { OnOk result (out.new.items ≡ out.old.items ++ packet_text word.now block id) }
{
    add_basics(
        out,
        &[
            Basic::Text(word),
            Basic::Text(b" block="),
            Basic::Number(block),
            Basic::Text(b" id="),
            Basic::Number(u64::from(id)),
        ],
    )
}

/// Adds a number of two bytes in hex.
fn add_short(out: &mut Vec<u8>, number: u16) -> Result<(), NoMemory>
    ensures { OnOk result (out.new.items ≡ out.old.items ++ hex_text 2 number) }
{
    let mut bytes = [0; 2];
    BigEndian::write_u16(&mut bytes, number);
    add_basics(out, &[Basic::Text(b"0x"), Basic::Hex(&bytes)])
}

/// Adds a number of four bytes in hex.
fn add_long(out: &mut Vec<u8>, number: u32) -> Result<(), NoMemory>
    ensures { OnOk result (out.new.items ≡ out.old.items ++ hex_text 4 number) }
{
    let mut bytes = [0; 4];
    BigEndian::write_u32(&mut bytes, number);
    add_basics(out, &[Basic::Text(b"0x"), Basic::Hex(&bytes)])
}

/// Adds the field of a status.
fn add_status(out: &mut Vec<u8>, status: u16) -> Result<(), NoMemory>
    ensures { OnOk result (out.new.items ≡ out.old.items ++ status_text status) }
{
    add_basics(out, &[Basic::Text(b" status=")])?;
    add_short(out, status)
}

/// Adds the numbers from the first to the last.
fn add_span(out: &mut Vec<u8>, first: u64, last: u64) -> Result<(), NoMemory>
    ensures { OnOk result (out.new.items ≡ out.old.items ++ span_text (first, last)) }
{
    if first == last {
        return add_basics(out, &[Basic::Number(first)]);
    }
    add_basics(
        out,
        &[Basic::Number(first), Basic::Text(b"-"), Basic::Number(last)],
    )
}

/// Adds a buffer.
fn add_id(out: &mut Vec<u8>, id: BufferId) -> Result<(), NoMemory>
    ensures { OnOk result (out.new.items ≡ out.old.items ++ id_text id) }
{
    add_basics(
        out,
        &[
            Basic::Number(u64::from(id.place)),
            Basic::Text(b"."),
            Basic::Number(u64::from(id.generation)),
        ],
    )
}

/// Adds a buffer, or `none`.
fn add_id_or_none(out: &mut Vec<u8>, id: Option<BufferId>) -> Result<(), NoMemory>
    ensures { OnOk result (out.new.items ≡ out.old.items ++ id_or_none id) }
{
    match id {
        Some(id) => add_id(out, id),
        None => add_basics(out, &[Basic::Text(b"none")]),
    }
}
