ghost use Rattle.std.specs.Prelude.{◌≡◌, map};
ghost use Rattle.gev_world.specs.Ends.{told_end};

use client_machine::Outcome;

/// How a run ends.
#[derive(Clone, Copy, PartialEq, Eq)]
pub(crate) enum RunEnd {
    /// All was sent, and nothing is on its way.
    Done,
    /// The command with this request number had no answer after three sends.
    NoAnswer(u16),
    /// A command was refused with this status.
    Refused(u16),
}

/// The end of a run in which the client was told this.
pub(crate) fn end_of(outcome: Outcome) -> Option<RunEnd>
    ensures { result ≡ told_end outcome }
{
    match outcome {
        Outcome::NoAnswer(req) => Some(RunEnd::NoAnswer(req)),
        Outcome::Refused(status) => Some(RunEnd::Refused(status)),
        _ => None,
    }
}
