//! The packet that waits first.

ghost use Rattle.camera_sim.specs.Fetching.{Fetches};

use super::Camera;
use camera_stream::PACKET_ROOM;
use gev_types::Peer;

impl Camera {
    /// As `next_packet`: where the packet that waits first goes and its length, with its bytes at the
    /// front of `out`. Its clause says all of this as one fact.
    pub fn fetch(&mut self, out: &mut [u8; PACKET_ROOM]) -> Option<(Peer, usize)>
        ensures { Fetches result self.old out.new self.new }
    {
        self.next_packet(out)
    }
}
