use gev_types::Frame;

/// A frame that was sent.
#[derive(Drop)]
pub struct SentFrame {
    /// The frame.
    pub frame: Frame,
    /// How many bytes of the image each of its payload packets holds, but for the last.
    pub payload_size: u32,
}
