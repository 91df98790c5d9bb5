//! Laws over the order of the turns. Each function only carries its statement.

ghost use Rattle.std.specs.Prelude.{◌≤◌, ℕ, List};
ghost use Rattle.camera_serving.specs.Turns.{Turn};
ghost use Rattle.camera_serving.specs.Laws.{FrameTurnsAreApart, AllIsServedFirst, IsRoundedUp};

/// A frame turn comes once a reading is the period after that of the frame turn before, behind the serving turns that have to
/// come before it.
pub fn frame_turns_are_apart()
    ensures { (rate : ℕ) (t : Turn) (before : List Turn) → FrameTurnsAreApart rate t before }
{}

/// At the beginning, and behind a frame turn, what waits is served before the next frame turn, also where that is late: 64
/// datagrams at most.
pub fn what_waits_is_served_first()
    ensures { (rate : ℕ) (before ts : List Turn) → AllIsServedFirst rate before ts }
{}

/// The period is 1000 milliseconds by the rate, rounded up.
pub fn period_is_rounded_up()
    ensures { (rate : ℕ) → 1 ≤ rate → IsRoundedUp rate }
{}
