ghost use Rattle.std.specs.Prelude.{◌≡◌, ◌++◌, OnOk, OnErr};
ghost use Rattle.gev_report.specs.SoakLine.{soak_line};

use crate::piece::Piece;
use crate::soak_numbers::SoakNumbers;
use crate::writing::add;
use gev_types::NoMemory;
use std::alloc::Global;

/// Adds the last line of a soak run.
pub fn line_soak(_alloc: Global, numbers: &SoakNumbers, out: &mut Vec<u8>) -> Result<(), NoMemory>
    ensures line { OnOk result (out.new.items ≡ out.old.items ++ soak_line numbers.now) }
    ensures unchanged { OnErr result (out.new.items ≡ out.old.items) }
{
    add(
        out,
        &[
            Piece::Text(b"soak frames="),
            Piece::Number(numbers.frames),
            Piece::Text(b" taken="),
            Piece::Number(numbers.taken),
            Piece::Text(b" complete="),
            Piece::Number(numbers.complete),
            Piece::Text(b" incomplete="),
            Piece::Number(numbers.incomplete),
            Piece::Text(b" underrun="),
            Piece::Number(numbers.underrun),
            Piece::Text(b" requests="),
            Piece::Number(numbers.requests),
            Piece::Text(b" commands="),
            Piece::Number(numbers.commands),
            Piece::Text(b"\n"),
        ],
    )
}
