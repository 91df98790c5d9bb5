ghost use Rattle.std.specs.Prelude.{◌≡◌, length};

use gev_types::Bytes;

/// What a cell says to its lane.
#[derive(Clone, Copy, Debug, PartialEq, Eq)]
pub enum CellKind {
    /// A datagram with so many bytes came, which stand at the front of the cell's.
    Datagram(u32),
    /// No datagram; the moment alone.
    Tick,
    /// The reader has ended.
    End,
}

/// A datagram on its way to a lane, or a moment, or the end. It has 9000 bytes.
#[derive(Drop)]
pub struct Cell {
    /// The moment of the turn, in milliseconds.
    pub moment: u64,
    /// What the cell says.
    pub kind: CellKind,
    /// Room for a datagram.
    pub bytes: Bytes,
    pub ghost wide: { length bytes ≡ 9000 },
}
