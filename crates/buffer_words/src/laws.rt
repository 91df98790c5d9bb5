//! What the definitions promise: each function here does nothing, and its contract is a law.
ghost use Rattle.buffer_words.specs.Witness.{BetweenSteps, EntriesAreOwned};
ghost use Rattle.buffer_words.specs.Loans.{LoansStay};
ghost use Rattle.buffer_words.specs.Several.{NothingAddsNone, OneAddsOne, BothAddBoth};
ghost use Rattle.buffer_words.specs.WorkLaws.{WorksCompose, NewWorkersDoTheirKind, HostsBegin, HostsSplit, HostsJoin, HostsAct, HostsSeeMore, HostedHistoriesAreTheirs};

/// Between any two steps each place has one owner, buffers were handed out in the order of their
/// fills, and words, slots and passes are those of one history.
pub fn between_steps()
    ensures { BetweenSteps }
{}

/// After a call that added an entry each place has one owner, and buffers were handed out in order.
pub fn entries_are_owned()
    ensures { EntriesAreOwned }
{}

/// A loan stays its pass's while calls leave its place alone.
pub fn loans_stay()
    ensures { LoansStay }
{}

/// A call that does nothing adds no entry.
pub fn nothing_adds_none()
    ensures { NothingAddsNone }
{}

/// A call that adds one entry adds it.
pub fn one_adds_one()
    ensures { OneAddsOne }
{}

/// Of two calls the second adds its entries after the first one's.
pub fn both_add_both()
    ensures { BothAddBoth }
{}

/// A worker whose calls are of its kind, one after another, did acts of its kind.
pub fn works_compose()
    ensures { WorksCompose }
{}

/// All that a new worker did is of its kind.
pub fn new_workers_do_their_kind()
    ensures { NewWorkersDoTheirKind }
{}

/// A pass of the first actor becomes a host.
pub fn hosts_begin()
    ensures { HostsBegin }
{}

/// A host splits a worker off.
pub fn hosts_split()
    ensures { HostsSplit }
{}

/// A host joins a worker.
pub fn hosts_join()
    ensures { HostsJoin }
{}

/// A host makes calls of its kind.
pub fn hosts_act()
    ensures { HostsAct }
{}

/// A host sees more of others' entries.
pub fn hosts_see_more()
    ensures { HostsSeeMore }
{}

/// Once all workers are joined, each entry is the host's or a worker's, the host is alone, and what
/// only some of them do is by those alone.
pub fn hosted_histories_are_theirs()
    ensures { HostedHistoriesAreTheirs }
{}
