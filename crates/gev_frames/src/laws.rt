//! Laws over the definitions of the generator and its frames. These functions do nothing: their
//! contracts are the laws.

ghost use Rattle.std.specs.Prelude.{ℕ, Bool};
ghost use Rattle.gev_types.specs.declared.frame.Shape.{Shape};
ghost use Rattle.gev_frames.specs.Laws.{AreDraws, MakesFrame, MakesShortFrames, MakesCameraFrame};

/// The bytes of an image are those of one draw each, in order: byte j is that of draw j + 1.
pub fn drawn_bytes_are_draws()
    ensures { (count x : ℕ) → AreDraws count x }
{}

/// The frame of any seed, block id and shape that a frame may have is a valid one.
pub fn made_frames_are_valid()
    ensures { (seed block : ℕ) (shape : Shape) → MakesFrame seed block shape }
{}

/// At least one line of such a frame makes a valid frame, and all its lines make that frame.
pub fn short_frames_are_valid()
    ensures { (seed block : ℕ) (shape : Shape) → MakesShortFrames seed block shape }
{}

/// What a camera makes is a valid frame of its block, and the whole where its images aren't short.
pub fn camera_frames_are_valid()
    ensures { (short : Bool) (seed block : ℕ) (shape : Shape) → MakesCameraFrame short seed block shape }
{}
