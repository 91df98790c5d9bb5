ghost use Rattle.std.specs.Prelude.{◌≡◌, ◌++◌, OnOk, OnErr};
ghost use Rattle.frame_writing.specs.Pieces.{piece_text};
ghost use Rattle.frame_writing.specs.ReceiveLine.{ids_text, receive_line};

use crate::adding::add;
use crate::piece::Piece;
use crate::receive_counts::{BlockIds, ReceiveCounts};
use gev_types::NoMemory;

/// The word for the block ids of a stream.
fn ids_piece(ids: BlockIds) -> Piece<'static>
    ensures { piece_text result ≡ ids_text ids }
{
    match ids {
        BlockIds::Standard => Piece::Text(b"standard"),
        BlockIds::Extended => Piece::Text(b"extended"),
        BlockIds::Unknown => Piece::Text(b"none"),
    }
}

/// Adds the last line of a run over a camera's frames.
pub fn add_receive(out: &mut Vec<u8>, counts: &ReceiveCounts) -> Result<(), NoMemory>
    ensures line { OnOk result (out.new.items ≡ out.old.items ++ receive_line counts.now) }
    ensures unchanged { OnErr result (out.new.items ≡ out.old.items) }
{
    add(
        out,
        &[
            Piece::Text(b"receive frames="),
            Piece::Number(u64::from(counts.frames)),
            Piece::Text(b" taken="),
            Piece::Number(u64::from(counts.taken)),
            Piece::Text(b" complete="),
            Piece::Number(u64::from(counts.complete)),
            Piece::Text(b" p="),
            Piece::Number(u64::from(counts.p)),
            Piece::Text(b" bytes="),
            Piece::Number(u64::from(counts.bytes)),
            Piece::Text(b" ids="),
            ids_piece(counts.ids),
            Piece::Text(b" underrun="),
            Piece::Number(counts.underrun),
            Piece::Text(b" requests="),
            Piece::Number(counts.requests),
            Piece::Text(b" foreign="),
            Piece::Number(counts.foreign),
            Piece::Text(b" late="),
            Piece::Number(counts.late),
            Piece::Text(b" repeat="),
            Piece::Number(counts.repeat),
            Piece::Text(b" misfit="),
            Piece::Number(counts.misfit),
            Piece::Text(b" starved="),
            Piece::Number(counts.starved),
            Piece::Text(b" notice="),
            Piece::Number(counts.notice),
            Piece::Text(b" strangers="),
            Piece::Number(counts.strangers),
            Piece::Text(b"\n"),
        ],
    )
}
