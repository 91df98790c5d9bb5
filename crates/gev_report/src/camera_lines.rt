ghost use Rattle.std.specs.Prelude.{◌≡◌, ◌++◌, OnOk, OnErr};
ghost use Rattle.gev_report.specs.CameraLines.{ack_line, stream_line, frame_line, executed_line};

use crate::piece::Piece;
use crate::writing::add;
use gev_types::NoMemory;
use std::alloc::Global;

/// Adds the line of an acknowledge: the port that it goes to, and its bytes in hex.
pub fn line_ack(_alloc: Global, peer: u16, bytes: &[u8], out: &mut Vec<u8>) -> Result<(), NoMemory>
    ensures line { OnOk result (out.new.items ≡ out.old.items ++ ack_line peer bytes.now) }
    ensures unchanged { OnErr result (out.new.items ≡ out.old.items) }
{
    add(
        out,
        &[
            Piece::Text(b"a "),
            Piece::Number(u64::from(peer)),
            Piece::Text(b" "),
            Piece::Hex(bytes),
            Piece::Text(b"\n"),
        ],
    )
}

/// Adds the line of a stream datagram: the port that it goes to, and its bytes in hex.
pub fn line_stream(
    _alloc: Global,
    port: u16,
    bytes: &[u8],
    out: &mut Vec<u8>,
) -> Result<(), NoMemory>
    ensures line { OnOk result (out.new.items ≡ out.old.items ++ stream_line port bytes.now) }
    ensures unchanged { OnErr result (out.new.items ≡ out.old.items) }
{
    add(
        out,
        &[
            Piece::Text(b"s "),
            Piece::Number(u64::from(port)),
            Piece::Text(b" "),
            Piece::Hex(bytes),
            Piece::Text(b"\n"),
        ],
    )
}

/// Adds the line of a frame: its block id and the number of its packets, or that the stream channel
/// is closed.
pub fn line_frame(
    _alloc: Global,
    sent: Option<(u64, u32)>,
    out: &mut Vec<u8>,
) -> Result<(), NoMemory>
    ensures line { OnOk result (out.new.items ≡ out.old.items ++ frame_line sent) }
    ensures unchanged { OnErr result (out.new.items ≡ out.old.items) }
{
    match sent {
        Some((block, packets)) => add(
            out,
            &[
                Piece::Text(b"frame "),
                Piece::Number(block),
                Piece::Text(b" "),
                Piece::Number(u64::from(packets)),
                Piece::Text(b"\n"),
            ],
        ),
        None => add(out, &[Piece::Text(b"frame closed\n")]),
    }
}

/// Adds the last line of a camera script: how many commands the camera executed.
pub fn line_executed(_alloc: Global, executed: u64, out: &mut Vec<u8>) -> Result<(), NoMemory>
    ensures line { OnOk result (out.new.items ≡ out.old.items ++ executed_line executed) }
    ensures unchanged { OnErr result (out.new.items ≡ out.old.items) }
{
    add(
        out,
        &[
            Piece::Text(b"end executed="),
            Piece::Number(executed),
            Piece::Text(b"\n"),
        ],
    )
}
