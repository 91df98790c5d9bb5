//! Laws of all runs over a camera's frames. Each function only carries its statement.

ghost use Rattle.live_promises.specs.Commands.{CommandsWait};
ghost use Rattle.live_promises.specs.Reception.{ReceptionsHaveCauses};
ghost use Rattle.live_promises.specs.ReceiveLaws.{RunsHaveHistories, FramesRunsKeepPromises};
ghost use Rattle.live_promises.specs.Stopping.{LeavingMakesTheStop};
ghost use Rattle.live_promises.specs.Written.{ReceptionsKeepPromises};

/// Each whole run has its causes. What went over its control link are the acts of one client. Its commands are a front of
/// those by which the camera is taken, in order, and then of those by which it's let go. Between them it sends heartbeats,
/// and asks for packets again only where the camera allows it. NoAnswer comes only where a command was sent three times and
/// no acknowledge that matches came since. RefusedAt comes only where the camera refused that register with that status.
/// Before the last line Controlled is the answer exactly where the first acknowledge tells that another application controls
/// the camera. ControlLost comes only where the acknowledge of a heartbeat told so, and Silent only where the host's clock
/// told that the silence was waited.
pub fn receptions_have_causes()
    ensures { ReceptionsHaveCauses }
{}

/// A command is submitted once an acknowledge that matches the one before it came, or that one was given up.
pub fn commands_wait_for_answers()
    ensures { CommandsWait }
{}

/// Where reader and application ran, the board's history has one owner of each buffer at every step, and each of the
/// two did its part of it.
pub fn runs_have_histories()
    ensures { RunsHaveHistories }
{}

/// Each such run keeps the headline, and what it handed out by that headline the application took; each buffer that was
/// taken holds a block, and its frame where the stream's datagrams were sent from one map of frames.
pub fn frames_runs_keep_promises()
    ensures { FramesRunsKeepPromises }
{}

/// Whoever lets a camera go submits all commands of the stop, in order; or a front of them, where the link failed, one
/// had no answer, or the heartbeat that was waited for told lost control.
pub fn leaving_makes_the_stop()
    ensures { LeavingMakesTheStop }
{}

/// Each whole run keeps its promises. Where reader and application ran they kept the headline, and where the camera wasn't
/// taken, no leader came, or memory was wanting before they ran, no buffer was filled or taken. The stop was made, or a
/// front of it, of a camera that was taken, or was held, and hadn't let its controller go, whatever the answer. And what
/// was written are the texts of the buffers that the application took, and the last line, all of it where the answer has
/// that line.
pub fn receptions_keep_promises()
    ensures { ReceptionsKeepPromises }
{}
