//! Laws of fills and retired blocks. Each function only carries its statement.

ghost use Rattle.block_fills.specs.Laws.{BlocksAreRetired, FillsAreRetired};

/// Of inputs among which no acquisition begins while a block is open: each block that retires with a buffer
/// is its block's frame, or has each received byte in place, tells no other frame's image and isn't marked complete.
pub fn retired_blocks_are_blocks()
    ensures { BlocksAreRetired }
{}

/// The fills of retired blocks put just these blocks into the output, in order, or try to.
pub fn fills_are_the_retired()
    ensures { FillsAreRetired }
{}
