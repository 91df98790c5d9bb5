ghost use Rattle.std.specs.Prelude.{◌≡◌};
ghost use Rattle.gev_types.specs.FrameSize.{IsFrame};
ghost use Rattle.stream_packets.specs.FramePackets.{leader_info};

use crate::fields::LeaderInfo;
use gev_types::{Frame, frame_size};

/// What the leader of a frame says: the lines that the frame announces, and their size.
///
/// A frame with fewer lines has a smaller image; only its trailer tells (GigE Vision 2.0, GVSP image
/// trailer).
pub fn leader_info(frame: &Frame) -> LeaderInfo
    requires { IsFrame frame.now }
    ensures { result ≡ leader_info frame.now }
{
    let told = frame_size(
        frame.pixel,
        frame.size_x,
        frame.size_y,
        frame.padding_x,
        frame.padding_y,
    );
    LeaderInfo {
        timestamp: frame.timestamp,
        pixel: frame.pixel,
        size_x: frame.size_x,
        size_y: frame.size_y,
        offset_x: frame.offset_x,
        offset_y: frame.offset_y,
        padding_x: frame.padding_x,
        padding_y: frame.padding_y,
        size: told.unwrap(),
    }
}
