use crate::camera_turn::Rooms;
use lossy_queue::LossyQueue;

/// What a round works with beside the world.
#[derive(Drop)]
pub(crate) struct Tools {
    pub rooms: Rooms,
    /// Empty but while its datagrams arrive.
    pub arriving: LossyQueue,
    /// What the host asks for in a round.
    pub requests: Vec<[u8; 28]>,
    /// Holds a line at a time.
    pub text: Vec<u8>,
}
