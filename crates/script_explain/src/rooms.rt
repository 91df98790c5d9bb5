use note_tape::Told;
use script_replay::DatagramRooms;

/// What lines are run in, over and over.
#[derive(Drop)]
pub struct Rooms {
    /// The bytes of a datagram.
    pub datagram: DatagramRooms,
    /// The report of a line.
    pub report: Vec<u8>,
    /// What is told of a line.
    pub tape: Vec<Told>,
}
