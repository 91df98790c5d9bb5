use camera_sim::{MESSAGE_SIZE, PACKET_ROOM};

/// Where the camera writes an acknowledge and a packet.
#[derive(Drop)]
pub struct Rooms {
    /// The acknowledge of a command.
    pub answer: [u8; MESSAGE_SIZE],
    /// A packet of the stream.
    pub packet: [u8; PACKET_ROOM],
}

impl Rooms {
    /// Rooms with nothing in them.
    pub fn new() -> Rooms {
        Rooms {
            answer: [0; MESSAGE_SIZE],
            packet: [0; PACKET_ROOM],
        }
    }
}
