//! Notes of datagrams that aren't in an image.

ghost use Rattle.std.specs.Prelude.{◌≡◌, ◌++◌, OnOk, None, Some};
ghost use Rattle.stream_packets.specs.Packets.{StreamPacket};
ghost use Rattle.script_trace.specs.Notes.{idle, ignored, unwidened};
ghost use Rattle.script_trace.specs.Texts.{note_line};
ghost use Rattle.note_report.specs.Names.{IsNamed};

use crate::at::At;
use crate::piece::{Named, Piece};
use crate::writing::add_note;
use acquisition_machine::Why;
use gev_types::NoMemory;
use gvsp_std::StdError;
use gvsp_wire::WireError;

/// A datagram of so many bytes came while the stream wasn't running.
pub fn note_idle(at: At, bytes: u64, out: &mut Vec<u8>) -> Result<(), NoMemory>
    ensures { OnOk result (out.new.items ≡ out.old.items ++ note_line at.line at.moment (idle bytes)) }
{
    add_note(
        at,
        &[Piece::Text(b"idle bytes="), Piece::Number(bytes)],
        out,
    )
}

/// A datagram that is no packet of the stream.
pub fn note_foreign(at: At, error: WireError, out: &mut Vec<u8>) -> Result<(), NoMemory>
    ensures { OnOk result (out.new.items ≡ out.old.items ++ note_line at.line at.moment (ignored (Why.Foreign error) None)) }
{
    match error {
        WireError::Short(len) => add_note(
            at,
            &[
                Piece::Text(b"foreign short="),
                Piece::Number(u64::from(len)),
            ],
            out,
        ),
        WireError::Standard => add_note(at, &[Piece::Text(b"foreign standard")], out),
        WireError::Format(format) => add_note(
            at,
            &[
                Piece::Text(b"foreign format="),
                Piece::Number(u64::from(format)),
            ],
            out,
        ),
        WireError::ZeroBlock => add_note(at, &[Piece::Text(b"foreign zero-block")], out),
        WireError::BadId(id) => add_note(
            at,
            &[
                Piece::Text(b"foreign bad-id="),
                Piece::Number(u64::from(id)),
            ],
            out,
        ),
        WireError::PayloadType(kind) => add_note(
            at,
            &[Piece::Text(b"foreign payload-type="), Piece::Short(kind)],
            out,
        ),
        WireError::FrameSize => add_note(at, &[Piece::Text(b"foreign frame-size")], out),
    }
}

/// A datagram with standard identifiers that couldn't be told with extended ones.
pub fn note_unwidened(at: At, error: StdError, out: &mut Vec<u8>) -> Result<(), NoMemory>
    ensures { OnOk result (out.new.items ≡ out.old.items ++ note_line at.line at.moment (unwidened error)) }
{
    match error {
        StdError::Short(len) => add_note(
            at,
            &[
                Piece::Text(b"foreign short="),
                Piece::Number(u64::from(len)),
            ],
            out,
        ),
        StdError::Extended => add_note(at, &[Piece::Text(b"foreign standard")], out),
        StdError::Zero => add_note(at, &[Piece::Text(b"foreign zero-block")], out),
        StdError::Before(block) => add_note(
            at,
            &[
                Piece::Text(b"foreign before="),
                Piece::Number(u64::from(block)),
            ],
            out,
        ),
    }
}

/// A packet of the stream that was ignored for this reason.
pub fn note_ignored(at: At, why: Why, packet: Named, out: &mut Vec<u8>) -> Result<(), NoMemory>
    ensures { OnOk result ((x : StreamPacket) → IsNamed x packet → out.new.items ≡ out.old.items ++ note_line at.line at.moment (ignored why (Some x))) }
{
    match why {
        Why::Foreign(error) => note_foreign(at, error, out),
        Why::Late(bound) => add_note(
            at,
            &[
                Piece::Packet(b"late", packet.block, packet.id),
                Piece::Text(b" bound="),
                Piece::NumberOrNone(bound),
            ],
            out,
        ),
        Why::Repeat => add_note(
            at,
            &[Piece::Packet(b"repeat", packet.block, packet.id)],
            out,
        ),
        Why::Misfit => add_note(
            at,
            &[
                Piece::Packet(b"misfit", packet.block, packet.id),
                Piece::Status(packet.status),
                Piece::Text(b" bytes="),
                Piece::Number(packet.bytes),
            ],
            out,
        ),
        Why::Starved => add_note(
            at,
            &[Piece::Packet(b"starved", packet.block, packet.id)],
            out,
        ),
        Why::Notice => add_note(
            at,
            &[
                Piece::Packet(b"notice", packet.block, packet.id),
                Piece::Status(packet.status),
            ],
            out,
        ),
    }
}
