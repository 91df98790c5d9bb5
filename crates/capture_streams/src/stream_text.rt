//! The lines that list streams, each added with its line feed.

ghost use Rattle.std.specs.Prelude.{◌≡◌, ◌++◌, ◌∷◌, [], OnOk};
ghost use Rattle.std.specs.List.{flat_map};
ghost use Rattle.std.specs.Fmt.{decimal};
ghost use Rattle.hex.specs.Hex.{encode_lower};
ghost use Rattle.capture_streams.specs.Pieces.{piece_text};
ghost use Rattle.capture_streams.specs.Texts.{ids_text, pixel_text, peer_text, stream_line, end_text, stream_lines};

use crate::counts::Counts;
use crate::piece::Piece;
use crate::stream::Stream;
use byteorder::{BigEndian, ByteOrder};
use gev_types::{NoMemory, Peer};
use itoa::Buffer;

/// Adds these pieces, one after the other.
fn add(out: &mut Vec<u8>, pieces: &[Piece<'_>]) -> Result<(), NoMemory>
    ensures { OnOk result (out.new.items ≡ out.old.items ++ flat_map piece_text pieces.now) }
{
    for piece in pieces {
        add_piece(out, piece)?;
    }
    Ok(())
}

/// Adds a piece.
fn add_piece(out: &mut Vec<u8>, piece: &Piece<'_>) -> Result<(), NoMemory>
    ensures { OnOk result (out.new.items ≡ out.old.items ++ piece_text piece.now) }
{
    match piece {
        Piece::Text(text) => {
            out.extend_from_slice(text)?;
            Ok(())
        }
        Piece::Number(number) => add_number(out, *number),
        Piece::Pair(peer) => add_peer(out, *peer),
        Piece::Ids(extended, standard) => add_ids(out, *extended, *standard),
        Piece::Pixel(pixel) => add_pixel(out, *pixel),
    }
}

/// Adds a number in decimal.
fn add_number(out: &mut Vec<u8>, number: u64) -> Result<(), NoMemory>
    ensures { OnOk result (out.new.items ≡ out.old.items ++ decimal number) }
{
    let mut buffer = Buffer::new();
    out.extend_from_slice(buffer.format(number).as_bytes())?;
    Ok(())
}

/// Adds a number, and a byte behind it.
fn add_part(out: &mut Vec<u8>, number: u32, byte: u8) -> Result<(), NoMemory>
    ensures { OnOk result (out.new.items ≡ out.old.items ++ (decimal number ++ byte ∷ [])) }
{
    add_number(out, u64::from(number))?;
    out.push(byte)?;
    Ok(())
}

/// Adds an address and a port.
fn add_peer(out: &mut Vec<u8>, peer: Peer) -> Result<(), NoMemory>
    ensures { OnOk result (out.new.items ≡ out.old.items ++ peer_text peer) }
{
    add_part(out, peer.address / 16_777_216, b'.')?;
    add_part(out, peer.address / 65_536 % 256, b'.')?;
    add_part(out, peer.address / 256 % 256, b'.')?;
    add_part(out, peer.address % 256, b':')?;
    add_number(out, u64::from(peer.port))
}

/// Adds which headers leaders had.
fn add_ids(out: &mut Vec<u8>, extended: bool, standard: bool) -> Result<(), NoMemory>
    ensures { OnOk result (out.new.items ≡ out.old.items ++ ids_text extended standard) }
{
    let text: &[u8] = match (extended, standard) {
        (true, true) => b"both",
        (true, false) => b"extended",
        (false, _) => b"standard",
    };
    out.extend_from_slice(text)?;
    Ok(())
}

/// Adds the digits of a pixel format.
fn add_pixel(out: &mut Vec<u8>, pixel: u32) -> Result<(), NoMemory>
    ensures { OnOk result (out.new.items ≡ out.old.items ++ pixel_text pixel) }
{
    let mut bytes = [0u8; 4];
    BigEndian::write_u32(&mut bytes, pixel);
    add_hex(out, &bytes)
}

/// Adds two hex digits for each byte.
fn add_hex(out: &mut Vec<u8>, bytes: &[u8]) -> Result<(), NoMemory>
    ensures { OnOk result (out.new.items ≡ out.old.items ++ encode_lower bytes.now) }
{
    let start = out.len();
    // No memory holds a text whose length is beyond a usize.
    out.resize(start.saturating_add(2 * bytes.len()), 0)?;
    let _ = hex::encode_to_slice(bytes, &mut out[start..]);
    Ok(())
}

/// Adds the line of a stream.
pub(crate) fn add_stream(out: &mut Vec<u8>, stream: &Stream) -> Result<(), NoMemory>
    ensures { OnOk result (out.new.items ≡ out.old.items ++ stream_line stream.now) }
{
    add(
        out,
        &[
            Piece::Text(b"stream "),
            Piece::Pair(stream.sender),
            Piece::Text(b" "),
            Piece::Pair(stream.receiver),
            Piece::Text(b" ids="),
            Piece::Ids(stream.extended, stream.standard),
            Piece::Text(b" datagrams="),
            Piece::Number(stream.datagrams),
            Piece::Text(b" payload="),
            Piece::Number(stream.payload),
            Piece::Text(b" resent="),
            Piece::Number(stream.resent),
            Piece::Text(b" leaders="),
            Piece::Number(stream.leaders),
            Piece::Text(b" width="),
            Piece::Number(stream.width as u64),
            Piece::Text(b" height="),
            Piece::Number(stream.height as u64),
            Piece::Text(b" pixel=0x"),
            Piece::Pixel(stream.pixel),
            Piece::Text(b" bytes="),
            Piece::Number(stream.bytes as u64),
            Piece::Text(b" first="),
            Piece::Number(stream.first),
            Piece::Text(b" last="),
            Piece::Number(stream.last),
            Piece::Text(b" ms="),
            Piece::Number(stream.ended.saturating_sub(stream.begun)),
            Piece::Text(b"\n"),
        ],
    )
}

/// Adds the lines of streams.
pub(crate) fn add_streams(out: &mut Vec<u8>, streams: &[Stream]) -> Result<(), NoMemory>
    ensures { OnOk result (out.new.items ≡ out.old.items ++ stream_lines streams.now) }
{
    for stream in streams {
        add_stream(out, stream)?;
    }
    Ok(())
}

/// Adds the last line.
pub(crate) fn add_end(out: &mut Vec<u8>, counts: Counts, streams: usize) -> Result<(), NoMemory>
    ensures { OnOk result (out.new.items ≡ out.old.items ++ end_text counts streams) }
{
    add(
        out,
        &[
            Piece::Text(b"end packets="),
            Piece::Number(counts.packets),
            Piece::Text(b" datagrams="),
            Piece::Number(counts.datagrams),
            Piece::Text(b" fragments="),
            Piece::Number(counts.fragments),
            Piece::Text(b" cut="),
            Piece::Number(counts.cut),
            Piece::Text(b" other="),
            Piece::Number(counts.other),
            Piece::Text(b" unlisted="),
            Piece::Number(counts.unlisted),
            Piece::Text(b" streams="),
            Piece::Number(streams as u64),
            Piece::Text(b" dropped="),
            Piece::Number(counts.told_dropped()),
            Piece::Text(b" begin="),
            Piece::Number(counts.begin),
            Piece::Text(b"\n"),
        ],
    )
}
