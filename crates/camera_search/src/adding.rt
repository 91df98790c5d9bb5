//! Parts of a line, each added behind a text.

ghost use Rattle.std.specs.Prelude.{◌≡◌, ◌≤◌, ◌==◌, position, ◌++◌, ◌∷◌, [], length, OnOk};
ghost use Rattle.std.specs.List.{flat_map, before_first};
ghost use Rattle.std.specs.Fmt.{decimal};
ghost use Rattle.hex.specs.Hex.{encode_lower};
ghost use Rattle.camera_search.specs.Pieces.{piece_text};
ghost use Rattle.camera_search.specs.CameraLine.{address_text, mac_text, behind_colon, stands_for_itself, shown_byte, shown_text};

use crate::piece::Piece;
use gev_types::NoMemory;
use itoa::Buffer;

/// Adds these pieces, one after the other.
pub(crate) fn add(out: &mut Vec<u8>, pieces: &[Piece<'_>]) -> Result<(), NoMemory>
    ensures { OnOk result (out.new.items ≡ out.old.items ++ flat_map piece_text pieces.now) }
{
    for piece in pieces {
        add_piece(out, piece)?;
    }
    Ok(())
}

/// Adds a piece.
fn add_piece(out: &mut Vec<u8>, piece: &Piece<'_>) -> Result<(), NoMemory>
    ensures { OnOk result (out.new.items ≡ out.old.items ++ piece_text piece.now) }
{
    match piece {
        Piece::Text(text) => {
            out.extend_from_slice(text)?;
            Ok(())
        }
        Piece::Number(number) => add_number(out, *number),
        Piece::Address(address) => add_address(out, *address),
        Piece::Mac(bytes) => add_mac(out, *bytes),
        Piece::Shown(bytes) => add_shown(out, bytes),
    }
}

/// Adds a number in decimal.
fn add_number(out: &mut Vec<u8>, number: u64) -> Result<(), NoMemory>
    ensures { OnOk result (out.new.items ≡ out.old.items ++ decimal number) }
{
    let mut buffer = Buffer::new();
    out.extend_from_slice(buffer.format(number).as_bytes())?;
    Ok(())
}

/// Adds a number, and a dot behind it.
fn add_part(out: &mut Vec<u8>, number: u32) -> Result<(), NoMemory>
    ensures { OnOk result (out.new.items ≡ out.old.items ++ (decimal number ++ 46 ∷ [])) }
{
    add_number(out, u64::from(number))?;
    out.push(b'.')?;
    Ok(())
}

/// Adds an address.
fn add_address(out: &mut Vec<u8>, address: u32) -> Result<(), NoMemory>
    ensures { OnOk result (out.new.items ≡ out.old.items ++ address_text address) }
{
    add_part(out, address / 16_777_216)?;
    add_part(out, address / 65_536 % 256)?;
    add_part(out, address / 256 % 256)?;
    add_number(out, u64::from(address % 256))
}

/// Adds two hex digits for each byte.
fn add_hex(out: &mut Vec<u8>, bytes: &[u8]) -> Result<(), NoMemory>
    ensures { OnOk result (out.new.items ≡ out.old.items ++ encode_lower bytes.now) }
{
    let start = out.len();
    // No memory holds a text whose length is beyond a usize.
    out.resize(start.saturating_add(2 * bytes.len()), 0)?;
    let _ = hex::encode_to_slice(bytes, &mut out[start..]);
    Ok(())
}

/// Adds a colon and two hex digits.
fn add_behind_colon(out: &mut Vec<u8>, byte: u8) -> Result<(), NoMemory>
    ensures { OnOk result (out.new.items ≡ out.old.items ++ behind_colon byte) }
{
    out.push(b':')?;
    add_hex(out, &[byte])
}

/// Adds a MAC address.
fn add_mac(out: &mut Vec<u8>, bytes: &[u8; 6]) -> Result<(), NoMemory>
    ensures { OnOk result (out.new.items ≡ out.old.items ++ mac_text bytes.now) }
{
    add_hex(out, &bytes[..1])?;
    let rest = &bytes[1..];
    for byte in rest {
        add_behind_colon(out, *byte)?;
    }
    Ok(())
}

/// Whether the byte stands for itself in a text between quotes.
fn stands_for_itself(byte: u8) -> bool
    ensures { result ≡ stands_for_itself byte }
{
    0x20 <= byte && byte <= 0x7E && byte != b'"' && byte != b'\\'
}

/// Adds a byte of a text.
fn add_shown_byte(out: &mut Vec<u8>, byte: u8) -> Result<(), NoMemory>
    ensures { OnOk result (out.new.items ≡ out.old.items ++ shown_byte byte) }
{
    if stands_for_itself(byte) {
        out.push(byte)?;
        return Ok(());
    }
    out.extend_from_slice(b"\\x")?;
    add_hex(out, &[byte])
}

/// Adds a register's text, up to its first zero byte.
fn add_shown(out: &mut Vec<u8>, bytes: &[u8]) -> Result<(), NoMemory>
    ensures { OnOk result (out.new.items ≡ out.old.items ++ shown_text bytes.now) }
{
    let text = before_zero(bytes);
    for byte in text {
        add_shown_byte(out, *byte)?;
    }
    Ok(())
}

/// Where the first zero byte is.
fn first_zero(bytes: &[u8]) -> Option<usize>
    ensures { result ≡ position (λ byte. byte == 0) bytes.now }
{
    bytes.iter().position(|byte| *byte == 0)
}

/// The bytes before the first zero byte.
fn before_zero(bytes: &[u8]) -> &[u8]
    ensures { result.now ≡ before_first (λ byte. byte == 0) bytes.now }
{
    match first_zero(bytes) {
        Some(end) => &bytes[..end],
        None => bytes,
    }
}
