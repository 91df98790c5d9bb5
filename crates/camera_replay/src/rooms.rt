use camera_sim::{MESSAGE_SIZE, PACKET_ROOM};

/// The most bytes that the digits of one line spell.
pub(crate) const MOST_COMMAND_BYTES: usize = 10_000;

/// Room for the bytes of one message of each kind, which is used again for each line.
#[derive(Drop)]
pub(crate) struct Rooms {
    pub command: [u8; MOST_COMMAND_BYTES],
    pub ack: [u8; MESSAGE_SIZE],
    pub packet: [u8; PACKET_ROOM],
}

impl Rooms {
    pub(crate) fn new() -> Rooms {
        Rooms {
            command: [0; MOST_COMMAND_BYTES],
            ack: [0; MESSAGE_SIZE],
            packet: [0; PACKET_ROOM],
        }
    }
}
