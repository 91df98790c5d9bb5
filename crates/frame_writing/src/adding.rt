ghost use Rattle.std.specs.Prelude.{◌≡◌, ◌++◌, OnOk, OnErr};
ghost use Rattle.std.specs.List.{flat_map};
ghost use Rattle.byteorder.specs.Endian.{big_bytes};
ghost use Rattle.hex.specs.Hex.{encode_lower};
ghost use Rattle.frame_writing.specs.Pieces.{piece_text};

use crate::piece::Piece;
use byteorder::{BigEndian, ByteOrder};
use gev_report::{add_cause, add_ids, add_why};
use gev_types::NoMemory;
use itoa::Buffer;

/// Adds these pieces, one after the other, or nothing.
pub(crate) fn add(out: &mut Vec<u8>, pieces: &[Piece<'_>]) -> Result<(), NoMemory>
    ensures text { OnOk result (out.new.items ≡ out.old.items ++ flat_map piece_text pieces.now) }
    ensures unchanged { OnErr result (out.new.items ≡ out.old.items) }
{
    let start = out.len();
    for piece in pieces {
        if add_piece(out, piece).is_err() {
            out.truncate(start);
            return Err(NoMemory);
        }
    }
    Ok(())
}

/// Adds a piece, or nothing.
fn add_piece(out: &mut Vec<u8>, piece: &Piece<'_>) -> Result<(), NoMemory>
    ensures text { OnOk result (out.new.items ≡ out.old.items ++ piece_text piece.now) }
    ensures unchanged { OnErr result (out.new.items ≡ out.old.items) }
{
    let mut buffer = Buffer::new();
    match piece {
        Piece::Text(text) => out.extend_from_slice(text)?,
        Piece::Number(number) => out.extend_from_slice(buffer.format(*number).as_bytes())?,
        Piece::Flag(flag) => out.push(if *flag { b'1' } else { b'0' })?,
        Piece::Hex(bytes) => add_hex(out, bytes)?,
        Piece::Code(code) => add_hex(out, &code_bytes(*code))?,
        Piece::Cause(cause) => add_cause(out, *cause)?,
        Piece::Why(why) => add_why(out, *why)?,
        Piece::Ids(lost) => add_ids(out, lost)?,
    }
    Ok(())
}

/// The four bytes of a code, the highest first.
fn code_bytes(code: u32) -> [u8; 4]
    ensures { result ≡ big_bytes 4 code }
{
    let mut bytes = [0; 4];
    BigEndian::write_u32(&mut bytes, code);
    bytes
}

/// Adds two hex digits for each byte, or nothing.
fn add_hex(out: &mut Vec<u8>, bytes: &[u8]) -> Result<(), NoMemory>
    ensures text { OnOk result (out.new.items ≡ out.old.items ++ encode_lower bytes.now) }
    ensures unchanged { OnErr result (out.new.items ≡ out.old.items) }
{
    let start = out.len();
    // No memory holds a text whose length is beyond a usize.
    out.resize(start.saturating_add(2 * bytes.len()), 0)?;
    let _ = hex::encode_to_slice(bytes, &mut out[start..]);
    Ok(())
}
