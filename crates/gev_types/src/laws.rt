//! Laws of the definitions. Each function only carries its statement.

ghost use Rattle.std.specs.Prelude.{ℕ, ◌≤◌};
ghost use Rattle.gev_types.specs.Limits.{AreTheLimits};
ghost use Rattle.gev_types.specs.FrameSize.{FewerLines};

/// The constants of this crate are the limits that the definitions name.
pub fn constants_are_the_limits()
    ensures { AreTheLimits }
{}

/// Fewer lines make no larger image, and one line at least of an image that a frame may have makes
/// an image that a frame may have.
pub fn fewer_lines_make_a_smaller_image()
    ensures { (pixel size_x size_y padding_x padding_y rows : ℕ) → rows ≤ size_y → FewerLines pixel size_x size_y padding_x padding_y rows }
{}
