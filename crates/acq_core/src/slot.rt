use block_assembly::Assembly;
use packet_bitmap::Bitmap;

/// Two bitmaps of packet ids, which each open block has.
#[derive(Drop)]
pub(crate) struct Spare {
    /// For the packets that are kept.
    pub(crate) kept: Bitmap,
    /// For those that the camera can't send again.
    pub(crate) refused: Bitmap,
}

/// What an open block was given.
#[derive(Drop)]
pub(crate) enum Hold {
    /// No buffer: the block is starved, and its bitmaps wait.
    Without(Spare),
    /// The buffer of this place, in an assembly.
    With(u8, Assembly),
}

/// An open block.
#[derive(Drop)]
pub(crate) struct Slot {
    /// The block id.
    pub(crate) block: u64,
    /// What it was given.
    pub(crate) hold: Hold,
    /// The moment of its latest kept packet, or of its opening, in milliseconds.
    pub(crate) last: u64,
    /// How often it has asked for missing packets.
    pub(crate) rounds: u8,
    /// When it did last.
    pub(crate) round_at: u64,
}
