//! Notes of blocks and frames.

ghost use Rattle.std.specs.Prelude.{◌≡◌, ◌++◌, OnOk};
ghost use Rattle.script_trace.specs.Notes.{leads, opens, asks, first as first_note, absent, drops};
ghost use Rattle.script_trace.specs.Texts.{words_line, note_line};
ghost use Rattle.note_report.specs.Blocks.{counts_words};
ghost use Rattle.note_report.specs.Ended.{ended_words, unbuffered_words};

use crate::at::At;
use crate::block_counts::BlockCounts;
use crate::piece::Piece;
use crate::writing::add_note;
use block_assembly::Account;
use gentl_types::BufferId;
use gev_types::{Cause, NoMemory};
use gvsp_wire::LeaderInfo;

/// A leader of this block was kept.
pub fn note_leader(at: At, block: u64, info: LeaderInfo, out: &mut Vec<u8>) -> Result<(), NoMemory>
    ensures { OnOk result (out.new.items ≡ out.old.items ++ note_line at.line at.moment (leads block info)) }
{
    add_note(
        at,
        &[
            Piece::Text(b"leader block="),
            Piece::Number(block),
            Piece::Text(b" width="),
            Piece::Number(u64::from(info.size_x)),
            Piece::Text(b" height="),
            Piece::Number(u64::from(info.size_y)),
            Piece::Text(b" pixel="),
            Piece::Long(info.pixel),
            Piece::Text(b" bytes="),
            Piece::Number(u64::from(info.size)),
            Piece::Text(b" time="),
            Piece::Number(info.timestamp),
        ],
        out,
    )
}

/// The block was opened, with this buffer or none.
pub fn note_open(
    at: At,
    block: u64,
    buffer: Option<BufferId>,
    out: &mut Vec<u8>,
) -> Result<(), NoMemory>
    ensures { OnOk result (out.new.items ≡ out.old.items ++ note_line at.line at.moment (opens block buffer)) }
{
    add_note(
        at,
        &[
            Piece::Text(b"open block="),
            Piece::Number(block),
            Piece::Text(b" buffer="),
            Piece::IdOrNone(buffer),
        ],
        out,
    )
}

/// The block asks for the packets with the ids from the first to the last, in its round of this number.
pub fn note_ask(
    at: At,
    block: u64,
    first: u32,
    last: u32,
    round: u8,
    out: &mut Vec<u8>,
) -> Result<(), NoMemory>
    ensures { OnOk result (out.new.items ≡ out.old.items ++ note_line at.line at.moment (asks block (first, last) round)) }
{
    add_note(
        at,
        &[
            Piece::Text(b"ask block="),
            Piece::Number(block),
            Piece::Text(b" ids="),
            Piece::Span(u64::from(first), u64::from(last)),
            Piece::Text(b" round="),
            Piece::Number(u64::from(round)),
        ],
        out,
    )
}

/// The first block that retires in an acquisition, where it isn't block 1.
pub fn note_first(at: At, block: u64, out: &mut Vec<u8>) -> Result<(), NoMemory>
    ensures { OnOk result (out.new.items ≡ out.old.items ++ note_line at.line at.moment (first_note block)) }
{
    add_note(
        at,
        &[Piece::Text(b"first block="), Piece::Number(block)],
        out,
    )
}

/// None of the blocks from the first to the last was opened.
pub fn note_absent(at: At, first: u64, last: u64, out: &mut Vec<u8>) -> Result<(), NoMemory>
    ensures { OnOk result (out.new.items ≡ out.old.items ++ note_line at.line at.moment (absent (first, last))) }
{
    add_note(
        at,
        &[Piece::Text(b"absent blocks="), Piece::Span(first, last)],
        out,
    )
}

/// An entry of the output, with its record's block, gave way to another.
pub fn note_drop(at: At, block: u64, buffer: BufferId, out: &mut Vec<u8>) -> Result<(), NoMemory>
    ensures { OnOk result (out.new.items ≡ out.old.items ++ note_line at.line at.moment (drops block buffer)) }
{
    add_note(
        at,
        &[
            Piece::Text(b"drop block="),
            Piece::Number(block),
            Piece::Text(b" buffer="),
            Piece::Id(buffer),
        ],
        out,
    )
}

/// A block retired with a buffer, which went into the output or not.
pub fn note_done(
    at: At,
    block: u64,
    buffer: BufferId,
    cause: Cause,
    account: &Account,
    filled: bool,
    out: &mut Vec<u8>,
) -> Result<(), NoMemory>
    ensures { OnOk result (out.new.items ≡ out.old.items ++ words_line at.line at.moment (ended_words block buffer cause account.now filled)) }
{
    add_note(
        at,
        &[
            Piece::Text(b"done block="),
            Piece::Number(block),
            Piece::Text(b" buffer="),
            Piece::Id(buffer),
            Piece::Text(b" cause="),
            Piece::Cause(cause),
            Piece::Text(b" complete="),
            Piece::Flag(account.complete),
            Piece::Text(b" kept="),
            Piece::Number(u64::from(account.kept)),
            Piece::Text(b" missing="),
            Piece::Number(u64::from(account.lost.ids)),
            Piece::Text(b" why="),
            Piece::Why(account.why),
            Piece::Text(b" ids="),
            Piece::Ids(&account.lost),
            Piece::Text(b" out="),
            Piece::Flag(filled),
        ],
        out,
    )
}

/// A block retired without a buffer.
pub fn note_unbuffered(at: At, block: u64, cause: Cause, out: &mut Vec<u8>) -> Result<(), NoMemory>
    ensures { OnOk result (out.new.items ≡ out.old.items ++ words_line at.line at.moment (unbuffered_words block cause)) }
{
    add_note(
        at,
        &[
            Piece::Text(b"done block="),
            Piece::Number(block),
            Piece::Text(b" buffer=none cause="),
            Piece::Cause(cause),
        ],
        out,
    )
}

/// What blocks came to, at the end of a script; so many blocks are still open.
pub fn note_blocks(
    at: At,
    counts: &BlockCounts,
    still_open: u8,
    out: &mut Vec<u8>,
) -> Result<(), NoMemory>
    ensures { OnOk result (out.new.items ≡ out.old.items ++ words_line at.line at.moment (counts_words counts.now still_open)) }
{
    add_note(
        at,
        &[
            Piece::Text(b"blocks opened="),
            Piece::Number(counts.opened),
            Piece::Text(b" complete="),
            Piece::Number(counts.complete),
            Piece::Text(b" incomplete="),
            Piece::Number(counts.incomplete),
            Piece::Text(b" unbuffered="),
            Piece::Number(counts.unbuffered),
            Piece::Text(b" open="),
            Piece::Number(u64::from(still_open)),
            Piece::Text(b" absent="),
            Piece::Number(counts.absent),
            Piece::Text(b" dropped="),
            Piece::Number(counts.dropped),
        ],
        out,
    )
}
