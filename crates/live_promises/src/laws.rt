//! The law of all live runs with one lane. The function only carries its statement.

ghost use Rattle.live_promises.specs.Laws.{LiveRunsKeepPromises};

/// Each live run keeps the headline, and what it handed out by that headline the application took; each buffer that it
/// handed out holds a block, and its frame where its datagrams were sent from one map of frames; and its reader ended
/// for a cause.
pub fn live_runs_keep_promises()
    ensures { LiveRunsKeepPromises }
{}
