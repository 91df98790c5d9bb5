/// The numbers of a soak run's last line.
#[derive(Clone, Copy, Debug, Default, PartialEq, Eq)]
pub struct SoakNumbers {
    /// Frames that were asked for.
    pub frames: u64,
    /// Buffers that the application took.
    pub taken: u64,
    /// Those of them with a complete record.
    pub complete: u64,
    /// Those of them without.
    pub incomplete: u64,
    /// Blocks for which the pool had no buffer.
    pub underrun: u64,
    /// Packet resend commands that were asked for.
    pub requests: u64,
    /// Commands that the camera executed.
    pub commands: u64,
}
