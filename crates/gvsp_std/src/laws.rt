//! Laws of the definitions. Each function only carries its statement.

ghost use Rattle.gvsp_std.specs.Laws.{ChoosesTheNear, ChoosesItself, WidenedIsThePacket, WidenedIsLonger, StandardIsWidened, NarrowedIsStandard, NarrowedIsWidened};
ghost use Rattle.gvsp_std.specs.WorkedStandard.{StandardIsWorked};

/// An id names the one block near the greatest that has it, and none where there is none.
pub fn chooses_the_near()
    ensures { ChoosesTheNear }
{}

/// The id of a block in reach names that block.
pub fn chooses_itself()
    ensures { ChoosesItself }
{}

/// What a datagram becomes is a datagram of the same packet, and of no other, but for the block.
pub fn widened_is_the_packet()
    ensures { WidenedIsThePacket }
{}

/// What a datagram becomes has 12 bytes more.
pub fn widened_is_longer()
    ensures { WidenedIsLonger }
{}

/// A datagram of a packet with standard identifiers is refused only where its id names no block.
pub fn standard_is_widened()
    ensures { StandardIsWidened }
{}

/// The standard spelling of a packet is a datagram of it, but for the block.
pub fn narrowed_is_standard()
    ensures { NarrowedIsStandard }
{}

/// The standard spellings of packets become their plain spellings, each in its block.
pub fn narrowed_is_widened()
    ensures { NarrowedIsWidened }
{}

/// Some datagrams with standard identifiers, byte by byte, with what they become: each field of the header stands where the
/// standard says.
pub fn standard_is_worked()
    ensures { StandardIsWorked }
{}
