use board_calls::Mode;

/// What the words of a live run ask for, or those of a recorded one.
#[derive(Clone, Copy, Debug, PartialEq, Eq)]
pub struct LiveNumbers {
    /// The seed of the images.
    pub seed: u64,
    /// How many frames are to be handed out, from 1 to 1,000.
    pub frames: u32,
    /// How many buffers there are, from 1 to 15.
    pub buffers: u8,
    /// How many lanes the acquisition has, from 1 to 4; of a recorded run 1.
    pub lanes: u8,
    /// The most turns of the reader, from 1 to 100,000,000; of a recorded run to 100,000.
    pub turns: u64,
    /// Which waiting images are dropped; of a recorded run `OldestFirst`, which drops none.
    pub mode: Mode,
}
