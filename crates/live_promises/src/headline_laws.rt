//! Laws of the headline. Each function only carries its statement.

ghost use Rattle.live_promises.specs.HeadlineLaws.{TracesKeepHeadline, RunsKeepHeadline, BlocksHoldFrames};

/// What the trace of a script promises has the headline in it.
pub fn traces_keep_headline()
    ensures { TracesKeepHeadline }
{}

/// A run whose acquirers fill what their acquisitions retire, where nobody else fills more than empty records, keeps
/// the headline.
pub fn runs_keep_headline()
    ensures { RunsKeepHeadline }
{}

/// Where all datagrams of an acquisition were sent from one map of frames, each block that retires with its buffer
/// is its block's frame, or has each received byte in place, tells no other frame's image and isn't marked complete.
pub fn blocks_hold_frames()
    ensures { BlocksHoldFrames }
{}
