//! What the definitions promise: each function here does nothing, and its contract is a law.

ghost use Rattle.script_image.specs.Laws.{TakesAreCounted, TakenBuffersAreHandedSo, PicturesShowBlocks};

/// A `take` line that takes a buffer counts as one, and one that finds nothing as none.
pub fn takes_are_counted()
    ensures { TakesAreCounted }
{}

/// What a `take` line gets behind lines that were run was filled with a block that retired, or has the empty record.
pub fn taken_buffers_are_handed_so()
    ensures { TakenBuffersAreHandedSo }
{}

/// Of each buffer that was filled with a retired block, in a script or in a live run: under each map of frames from which
/// the datagrams of its acquisition were sent, its picture is the frame's where it is marked complete, and in every case
/// it is of the frame's own image, and shows what came of it, and 0 elsewhere.
pub fn pictures_show_blocks()
    ensures { PicturesShowBlocks }
{}
