ghost use Rattle.std.specs.Prelude.{◌≡◌, ◌++◌, OnOk, OnErr};
ghost use Rattle.gev_report.specs.Pieces.{piece_text};
ghost use Rattle.gev_report.specs.ReplayLines.{take_line, result_line, id_line, value_line, number_line, request_line, end_line};
ghost use Rattle.gev_report.specs.StepLine.{step_line, step_text};

use crate::end_counts::EndCounts;
use crate::piece::Piece;
use crate::step_text::StepText;
use crate::writing::add;
use gentl_types::BufferId;
use gev_types::{Buf, NoMemory};
use sha2::{Digest, Sha256};
use std::alloc::Global;

/// Adds the line of a buffer that the application took: its id, its record, and the SHA-256 digest of
/// its image.
pub fn line_take(_alloc: Global, id: BufferId, buf: &Buf, out: &mut Vec<u8>) -> Result<(), NoMemory>
    ensures line { OnOk result (out.new.items ≡ out.old.items ++ take_line id buf.now) }
    ensures unchanged { OnErr result (out.new.items ≡ out.old.items) }
{
    let rec = buf.rec();
    let digest = Sha256::digest(&buf.bytes()[..rec.data_len as usize]);
    add(
        out,
        &[
            Piece::Text(b"take "),
            Piece::Number(u64::from(id.place)),
            Piece::Text(b"."),
            Piece::Number(u64::from(id.generation)),
            Piece::Text(b" block="),
            Piece::Number(rec.block),
            Piece::Text(b" complete="),
            Piece::Flag(rec.complete),
            Piece::Text(b" larger="),
            Piece::Flag(rec.larger),
            Piece::Text(b" leader="),
            Piece::Flag(rec.has_leader),
            Piece::Text(b" len="),
            Piece::Number(u64::from(rec.data_len)),
            Piece::Text(b" filled="),
            Piece::Number(u64::from(rec.filled)),
            Piece::Text(b" sha256="),
            Piece::Hex(&digest),
            Piece::Text(b"\n"),
        ],
    )
}

/// Adds the line of a call that answers nothing but whether it was done: `ok`, or the number of its
/// refusal.
pub fn line_result(
    _alloc: Global,
    word: &str,
    answer: Result<(), i32>,
    out: &mut Vec<u8>,
) -> Result<(), NoMemory>
    ensures line { OnOk result (out.new.items ≡ out.old.items ++ result_line word.now answer) }
    ensures unchanged { OnErr result (out.new.items ≡ out.old.items) }
{
    let word = Piece::Text(word.as_bytes());
    match answer {
        Ok(()) => add(out, &[word, Piece::Text(b" ok\n")]),
        Err(code) => add(
            out,
            &[
                word,
                Piece::Text(b" "),
                Piece::Code(code),
                Piece::Text(b"\n"),
            ],
        ),
    }
}

/// Adds the line of a call that answers a buffer's id.
pub fn line_id(_alloc: Global, word: &str, id: BufferId, out: &mut Vec<u8>) -> Result<(), NoMemory>
    ensures line { OnOk result (out.new.items ≡ out.old.items ++ id_line word.now id) }
    ensures unchanged { OnErr result (out.new.items ≡ out.old.items) }
{
    add(
        out,
        &[
            Piece::Text(word.as_bytes()),
            Piece::Text(b" "),
            Piece::Number(u64::from(id.place)),
            Piece::Text(b"."),
            Piece::Number(u64::from(id.generation)),
            Piece::Text(b"\n"),
        ],
    )
}

/// Adds the line of a call that answers an information: its number, and its value.
pub fn line_value(
    _alloc: Global,
    word: &str,
    which: u32,
    value: u64,
    out: &mut Vec<u8>,
) -> Result<(), NoMemory>
    ensures line { OnOk result (out.new.items ≡ out.old.items ++ value_line word.now which value) }
    ensures unchanged { OnErr result (out.new.items ≡ out.old.items) }
{
    add(
        out,
        &[
            Piece::Text(word.as_bytes()),
            Piece::Text(b" "),
            Piece::Number(u64::from(which)),
            Piece::Text(b" "),
            Piece::Number(value),
            Piece::Text(b"\n"),
        ],
    )
}

/// Adds the line of a call that answers a number, as a handle's serial.
pub fn line_number(
    _alloc: Global,
    word: &str,
    value: u64,
    out: &mut Vec<u8>,
) -> Result<(), NoMemory>
    ensures line { OnOk result (out.new.items ≡ out.old.items ++ number_line word.now value) }
    ensures unchanged { OnErr result (out.new.items ≡ out.old.items) }
{
    add(
        out,
        &[
            Piece::Text(word.as_bytes()),
            Piece::Text(b" "),
            Piece::Number(value),
            Piece::Text(b"\n"),
        ],
    )
}

/// Adds the line of one step of the board: the actor, the act, and what it was answered.
pub fn line_step(
    _alloc: Global,
    actor: u8,
    act: &str,
    answer: StepText,
    out: &mut Vec<u8>,
) -> Result<(), NoMemory>
    ensures line { OnOk result (out.new.items ≡ out.old.items ++ step_line actor act.now answer) }
    ensures unchanged { OnErr result (out.new.items ≡ out.old.items) }
{
    add(
        out,
        &[
            Piece::Text(b"step "),
            Piece::Number(u64::from(actor)),
            Piece::Text(b" "),
            Piece::Text(act.as_bytes()),
            Piece::Text(b" "),
            step_piece(answer),
            Piece::Text(b"\n"),
        ],
    )
}

/// What a step was answered, as its line says it.
fn step_piece(answer: StepText) -> Piece<'static>
    ensures { piece_text result ≡ step_text answer }
{
    match answer {
        StepText::Done => Piece::Text(b"ok"),
        StepText::Number(number) => Piece::Number(u64::from(number)),
        StepText::None => Piece::Text(b"none"),
        StepText::Closed => Piece::Text(b"closed"),
        StepText::NotHeld => Piece::Text(b"not-held"),
        StepText::Vacant => Piece::Text(b"vacant"),
        StepText::Away => Piece::Text(b"away"),
    }
}

/// Adds the line of a packet resend command that was asked for: the command's bytes in hex, 28 of them, or 20
/// where identifiers are standard.
pub fn line_request(_alloc: Global, bytes: &[u8], out: &mut Vec<u8>) -> Result<(), NoMemory>
    ensures line { OnOk result (out.new.items ≡ out.old.items ++ request_line bytes.now) }
    ensures unchanged { OnErr result (out.new.items ≡ out.old.items) }
{
    add(
        out,
        &[
            Piece::Text(b"request "),
            Piece::Hex(bytes),
            Piece::Text(b"\n"),
        ],
    )
}

/// Adds the last line of a replay.
pub fn line_end(_alloc: Global, counts: &EndCounts, out: &mut Vec<u8>) -> Result<(), NoMemory>
    ensures line { OnOk result (out.new.items ≡ out.old.items ++ end_line counts.now) }
    ensures unchanged { OnErr result (out.new.items ≡ out.old.items) }
{
    add(
        out,
        &[
            Piece::Text(b"end taken="),
            Piece::Number(counts.taken),
            Piece::Text(b" fills="),
            Piece::Number(counts.fills),
            Piece::Text(b" complete="),
            Piece::Number(counts.complete),
            Piece::Text(b" underrun="),
            Piece::Number(counts.underrun),
            Piece::Text(b" requests="),
            Piece::Number(counts.requests),
            Piece::Text(b" foreign="),
            Piece::Number(counts.foreign),
            Piece::Text(b" late="),
            Piece::Number(counts.late),
            Piece::Text(b" repeat="),
            Piece::Number(counts.repeat),
            Piece::Text(b" misfit="),
            Piece::Number(counts.misfit),
            Piece::Text(b" starved="),
            Piece::Number(counts.starved),
            Piece::Text(b" notice="),
            Piece::Number(counts.notice),
            Piece::Text(b" idle="),
            Piece::Number(counts.idle),
            Piece::Text(b"\n"),
        ],
    )
}
