use crate::register_write::RegisterWrite;
use arrayvec::ArrayVec;

/// The digest of the image in a frame's line.
#[derive(Clone, Copy, Debug, PartialEq, Eq)]
pub enum LineDigest {
    /// SHA-256 (FIPS 180-4).
    Sha256,
    /// None: the line has `-`, and no digest is computed.
    Omitted,
}

/// What is written of the frames that are received.
#[derive(Clone, Copy, Debug, PartialEq, Eq)]
pub enum Output {
    /// A line of each frame, with this digest, and one at the end.
    Lines(LineDigest),
    /// The picture of each frame that has one.
    Pictures,
    /// The line at the end alone.
    Counts,
}

/// What the words of `receive` ask for.
#[derive(Drop)]
pub struct Settings {
    /// The camera's IPv4 address.
    pub camera: u32,
    /// How many frames are to be handed out, 1 at least.
    pub frames: u32,
    /// The registers that are to be written, in the order of the words.
    pub writes: ArrayVec<RegisterWrite, 64>,
    /// The packet size that is asked for, in bytes, with the headers of IP, UDP and GVSP, from 576 to 9,000.
    pub packet: u16,
    /// How many buffers there are, from 1 to 15.
    pub buffers: u8,
    /// The bytes of each buffer, from 1 to 67,108,864. None: those of the first frame.
    pub bytes: Option<u32>,
    /// The number of the buffer handling mode, from 0 to 2.
    pub mode: u8,
    /// How many blocks are open at once, from 1 to 4.
    pub window: u8,
    /// After how many milliseconds a block is given up, from 1 to 60,000.
    pub timeout: u32,
    /// How many milliseconds pass before packets of a block are asked for again, from 1 to 60,000.
    pub age: u32,
    /// How often the packets of a block are asked for again, from 0 to 8.
    pub rounds: u8,
    /// The run ends when nothing came from the camera for so many milliseconds, from 1 to 3,600,000.
    pub silence: u32,
    /// What is written.
    pub output: Output,
    /// Whether the run also ends where standard input has ended.
    pub until_input_ends: bool,
    /// A line on standard error comes each so many milliseconds, from 100 to 60,000; 0: none comes.
    pub progress: u32,
}
