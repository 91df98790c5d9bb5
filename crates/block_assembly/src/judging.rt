//! What becomes of a packet.

ghost use Rattle.std.specs.Prelude.{◌≡◌, ◌<◌, length};
ghost use Rattle.stream_packets.specs.Packets.{head_of};
ghost use Rattle.gvsp_wire.specs.View.{view};
ghost use Rattle.block_assembly.specs.PacketIds.{packet_ids};
ghost use Rattle.block_assembly.specs.Verdicts.{is_new, verdict_in};

use crate::progress::Progress;
use crate::verdict::Verdict;
use block_image::does_fit;
use gvsp_wire::Packet;

/// Whether no kept packet has the packet's id, and the packet is no second trailer.
fn is_new(assembly: &Progress, packet: &Packet<'_>) -> bool
    requires { (head_of (view packet.now)).id < length assembly.now.kept }
    ensures { result ≡ is_new assembly.now (view packet.now) }
{
    !assembly.kept.has(packet.head().id) && !(packet.is_trailer() && assembly.trailer.is_some())
}

/// What becomes of the packet.
pub(crate) fn judge(assembly: &Progress, packet: &Packet<'_>) -> Verdict
    requires { length assembly.now.kept ≡ packet_ids }
    ensures { result ≡ verdict_in assembly.now (view packet.now) }
{
    if packet.is_notice() {
        Verdict::Notice
    } else if !does_fit(assembly.payload_size, packet) {
        Verdict::Misfit
    } else if is_new(assembly, packet) {
        Verdict::Kept
    } else {
        Verdict::Repeat
    }
}
