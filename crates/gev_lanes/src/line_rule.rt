//! The rule of the queue, and what its calls tell.

use crate::line_log::Log;
use crossbeam_queue::protocol::{Join, Lesson, Outcome, Protocol, Split};

/// One giver and one taker.
pub(crate) struct OneToOne;

impl<T> Protocol<T, Log<T>> for OneToOne {
    ghost use Rattle.std.specs.Prelude.{true, []};
    ghost use Rattle.gev_lanes.specs.LineRule.{log, InOrder};

    ghost holds = { InOrder };

    ghost first = { log true true 0 [] [] 0 0 };
}

/// A pass that may do both parts into one that gives and one that takes.
pub(crate) struct Roles;

impl<T> Split<Log<T>> for Roles {
    ghost use Rattle.std.specs.Prelude.{true, false, [], length};
    ghost use Rattle.gev_lanes.specs.LineRule.{log};

    ghost left = { λ v. log true false 0 v.given [] v.refusals 0 };

    ghost right = { λ v. log false true (length v.given) [] v.taken 0 v.misses };
}

/// A try to give found the queue full. The pass that's split off is of no use.
pub(crate) struct Refused;

impl<T> Split<Log<T>> for Refused {
    ghost use Rattle.std.specs.Prelude.{suc};
    ghost use Rattle.gev_lanes.specs.LineRule.{log, spent};

    ghost left = { λ v. log v.gives v.takes v.least v.given v.taken (suc v.refusals) v.misses };

    ghost right = { λ v. spent };
}

/// A try to take found the queue empty. The pass that's split off is of no use.
pub(crate) struct Missed;

impl<T> Split<Log<T>> for Missed {
    ghost use Rattle.std.specs.Prelude.{suc};
    ghost use Rattle.gev_lanes.specs.LineRule.{log, spent};

    ghost left = { λ v. log v.gives v.takes v.least v.given v.taken v.refusals (suc v.misses) };

    ghost right = { λ v. spent };
}

/// A giver takes a taker in.
pub(crate) struct WithTaker;

impl<T> Join<Log<T>> for WithTaker {
    ghost use Rattle.std.specs.Prelude.{true};
    ghost use Rattle.gev_lanes.specs.LineRule.{log, spent};

    ghost both = { λ v w. log true true 0 v.given w.taken v.refusals w.misses };

    ghost spent = { spent };
}

/// A taker takes a giver in.
pub(crate) struct WithGiver;

impl<T> Join<Log<T>> for WithGiver {
    ghost use Rattle.std.specs.Prelude.{true};
    ghost use Rattle.gev_lanes.specs.LineRule.{log, spent};

    ghost both = { λ v w. log true true v.least w.given v.taken w.refusals v.misses };

    ghost spent = { spent };
}

/// An item was given.
pub(crate) struct Gave;

impl<T> Outcome<T, Log<T>> for Gave {
    ghost use Rattle.std.specs.Prelude.{◌≡◌, [], ◌∷◌, ◌++◌};
    ghost use Rattle.gev_lanes.specs.LineRule.{log};

    ghost then = { λ v x w. w ≡ log v.gives v.takes v.least (v.given ++ x ∷ []) v.taken v.refusals v.misses };
}

impl<T> Lesson<T, Log<T>> for Gave {
    ghost use Rattle.gev_lanes.specs.LineRule.{FoundBy};

    ghost fact = { λ v items. FoundBy v items };
}

/// An item was taken.
pub(crate) struct Took;

impl<T> Outcome<T, Log<T>> for Took {
    ghost use Rattle.std.specs.Prelude.{◌≡◌, [], ◌∷◌, ◌++◌};
    ghost use Rattle.gev_lanes.specs.LineRule.{log};

    ghost then = { λ v x w. w ≡ log v.gives v.takes v.least v.given (v.taken ++ x ∷ []) v.refusals v.misses };
}

impl<T> Lesson<T, Log<T>> for Took {
    ghost use Rattle.gev_lanes.specs.LineRule.{FoundBy};

    ghost fact = { λ v items. FoundBy v items };
}

/// What was given is what was taken, and then what the queue holds.
pub(crate) struct Total;

impl<T> Lesson<T, Log<T>> for Total {
    ghost use Rattle.std.specs.Prelude.{◌≡◌, ◌++◌};

    ghost fact = { λ v items. v.given ≡ v.taken ++ items };
}
