ghost use Rattle.std.specs.Prelude.{◌≡◌, ◌++◌, OnOk, OnErr};
ghost use Rattle.gev_report.specs.LiveLine.{live_line};

use crate::piece::Piece;
use crate::writing::add;
use gev_types::NoMemory;
use std::alloc::Global;

/// Adds the last line of a live run: how many frames were asked for, and how many buffers were taken.
pub fn line_live(_alloc: Global, asked: u32, taken: u32, out: &mut Vec<u8>) -> Result<(), NoMemory>
    ensures line { OnOk result (out.new.items ≡ out.old.items ++ live_line asked taken) }
    ensures unchanged { OnErr result (out.new.items ≡ out.old.items) }
{
    add(
        out,
        &[
            Piece::Text(b"live frames="),
            Piece::Number(u64::from(asked)),
            Piece::Text(b" taken="),
            Piece::Number(u64::from(taken)),
            Piece::Text(b"\n"),
        ],
    )
}
