use board_calls::Mode;

/// What is asked of a live run.
#[derive(Clone, Copy)]
pub struct Numbers {
    /// The seed of the generator of the camera's frames.
    pub seed: u64,
    /// How many frames are to be handed out.
    pub frames: u32,
    /// How many buffers there are, 1 to 15.
    pub buffers: u8,
    /// How many lanes there are, 1 to 4: with one the reader is the lane.
    pub lanes: u8,
    /// The most turns of the reader.
    pub turns: u64,
    /// What a new block does with buffers that wait for the application.
    pub mode: Mode,
}
