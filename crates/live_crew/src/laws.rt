//! Each function only carries its statement.

ghost use Rattle.live_crew.specs.HomeLaws.{WorkersBringHome, SplitNumbersAreApart};

/// A worker that another worker joined is home once that one's history is seen.
pub fn workers_bring_home()
    ensures { WorkersBringHome }
{}

/// Passes that are split off one after another have numbers that differ.
pub fn split_numbers_are_apart()
    ensures { SplitNumbersAreApart }
{}
