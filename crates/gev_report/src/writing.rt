ghost use Rattle.std.specs.Prelude.{◌≡◌, ◌++◌, OnOk, OnErr};
ghost use Rattle.std.specs.List.{flat_map};
ghost use Rattle.hex.specs.Hex.{encode_lower};
ghost use Rattle.gev_report.specs.Pieces.{piece_text};

use crate::piece::Piece;
use gev_types::NoMemory;
use itoa::Buffer;

/// Adds these pieces, one after the other, or nothing.
pub(crate) fn add(out: &mut Vec<u8>, pieces: &[Piece<'_>]) -> Result<(), NoMemory>
    ensures text { OnOk result (out.new.items ≡ out.old.items ++ flat_map piece_text pieces.now) }
    ensures unchanged { OnErr result (out.new.items ≡ out.old.items) }
{
    let start = out.len();
    for piece in pieces {
        if add_piece(out, piece).is_err() {
            out.truncate(start);
            return Err(NoMemory);
        }
    }
    Ok(())
}

/// Adds a text, or nothing.
fn add_text(out: &mut Vec<u8>, text: &[u8]) -> Result<(), NoMemory>
    ensures text { OnOk result (out.new.items ≡ out.old.items ++ text.now) }
    ensures unchanged { OnErr result (out.new.items ≡ out.old.items) }
{
    out.extend_from_slice(text)?;
    Ok(())
}

/// Adds a piece, or nothing.
fn add_piece(out: &mut Vec<u8>, piece: &Piece<'_>) -> Result<(), NoMemory>
    ensures text { OnOk result (out.new.items ≡ out.old.items ++ piece_text piece.now) }
    ensures unchanged { OnErr result (out.new.items ≡ out.old.items) }
{
    let mut buffer = Buffer::new();
    match piece {
        Piece::Text(text) => add_text(out, text),
        Piece::Number(number) => add_text(out, buffer.format(*number).as_bytes()),
        Piece::Code(code) => add_text(out, buffer.format(*code).as_bytes()),
        Piece::Flag(true) => add_text(out, b"1"),
        Piece::Flag(false) => add_text(out, b"0"),
        Piece::Hex(bytes) => add_hex(out, bytes),
    }
}

/// Adds two hex digits for each byte, or nothing.
fn add_hex(out: &mut Vec<u8>, bytes: &[u8]) -> Result<(), NoMemory>
    ensures text { OnOk result (out.new.items ≡ out.old.items ++ encode_lower bytes.now) }
    ensures unchanged { OnErr result (out.new.items ≡ out.old.items) }
{
    let start = out.len();
    // No memory holds a text whose length is beyond a usize.
    out.resize(start.saturating_add(2 * bytes.len()), 0)?;
    let _ = hex::encode_to_slice(bytes, &mut out[start..]);
    Ok(())
}
