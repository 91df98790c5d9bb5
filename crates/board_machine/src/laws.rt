//! What the definitions promise: each function here does nothing, and its contract is a law.

ghost use Rattle.board_machine.specs.Laws.{EachActHasOneAnswer, NoOtherActHasAnswer, OwnersAreCounted, EachActKeepsOwners};
ghost use Rattle.board_machine.specs.Laws.{RunsAreOwned, RunsAreLegal, RunsHandOut, TakesHandFirst};
ghost use Rattle.board_machine.specs.Laws.{ActsLeaveOthers, SplitsAddActors, SplitsAreCounted, JoinsEndActors, EndedActorsDoNothing, LoneActorsActNext};
ghost use Rattle.board_machine.specs.Laws.{GenerationsNeverFall, PlacesRise, ClaimsAreLowest, HandsHoldPlaces};
ghost use Rattle.board_machine.specs.Laws.{ActorsStay, OnlyJoinsEnd, ActorsAreBorn, UnbornDoNothing, LoneActorsStayAlone, OthersLeaveHands, EntriesAreTheirs};
ghost use Rattle.board_machine.specs.Laws.{RunWordIsSmall, HeldBuffersStay, OneSizeStays, OnlyOwnTakesCount, HistoriesGrow, HistoriesGrowByLists};
ghost use Rattle.board_machine.specs.Laws.{OpenStreamsTakeFills, RunWordStays, EmptyOutputStays, HandedAreOwn};
ghost use Rattle.std.specs.Prelude.{[]};
ghost use Rattle.board_machine.specs.Machine.{empty_board};
ghost use Rattle.board_machine.specs.Owners.{IsOwned};
ghost use Rattle.board_machine.specs.Histories.{Run, StandsFor};
ghost use Rattle.board_machine.specs.Worked.{worked};

/// Each act that may stand in a state of the board has exactly one answer there.
pub fn each_act_has_one_answer()
    ensures { EachActHasOneAnswer }
{}

/// An act that may not stand in a state of the board has no answer there.
pub fn no_other_act_has_an_answer()
    ensures { NoOtherActHasAnswer }
{}

/// One owner for each place, said by cases and said by counting, are the same.
pub fn owners_are_counted()
    ensures { OwnersAreCounted }
{}

/// On the board before any act each place has one owner: nobody.
pub fn empty_board_has_owners()
    ensures { IsOwned empty_board }
{}

/// Each act keeps one owner for each place.
pub fn each_act_keeps_owners()
    ensures { EachActKeepsOwners }
{}

/// After each prefix of a run each place has one owner.
pub fn runs_are_owned()
    ensures { RunsAreOwned }
{}

/// In a run the buffers leave the output in the order of their fills, and after a close none is
/// filled or taken.
pub fn runs_are_legal()
    ensures { RunsAreLegal }
{}

/// The output holds what was filled and not yet removed, with the content that each fill gave it.
pub fn runs_hand_out()
    ensures { RunsHandOut }
{}

/// A take hands its actor the output's first buffer, with the bytes and the record of its fill.
pub fn takes_hand_first()
    ensures { TakesHandFirst }
{}

/// An act of one actor leaves the hands of every other, and the words of the places in them.
pub fn acts_leave_others()
    ensures { ActsLeaveOthers }
{}

/// A split adds an actor with empty hands, under a number that was no actor's.
pub fn splits_add_actors()
    ensures { SplitsAddActors }
{}

/// One number is given out for the first actor, and one for each split.
pub fn splits_are_counted()
    ensures { SplitsAreCounted }
{}

/// An actor that is joined into another has ended.
pub fn joins_end_actors()
    ensures { JoinsEndActors }
{}

/// An ended actor does nothing more.
pub fn ended_actors_do_nothing()
    ensures { EndedActorsDoNothing }
{}

/// Where an actor is the only one, the next entry of any run is its own.
pub fn lone_actors_act_next()
    ensures { LoneActorsActNext }
{}

/// A place's generation never falls, and each generation has one size.
pub fn generations_never_fall()
    ensures { GenerationsNeverFall }
{}

/// The pool and the hands of each actor list their places lowest first, each once.
pub fn places_rise()
    ensures { PlacesRise }
{}

/// A claim gets the lowest place of the pool.
pub fn claims_are_lowest()
    ensures { ClaimsAreLowest }
{}

/// What is in an actor's hands is one of the 15 places.
pub fn hands_hold_places()
    ensures { HandsHoldPlaces }
{}

/// An actor stays one by its own act.
pub fn actors_stay()
    ensures { ActorsStay }
{}

/// An act leaves every actor an actor, but for one that it joins into another.
pub fn only_joins_end_actors()
    ensures { OnlyJoinsEnd }
{}

/// An actor was one before the act, or the act was a split that gave its number.
pub fn actors_are_born()
    ensures { ActorsAreBorn }
{}

/// A number that no split gave yet has no entry.
pub fn unborn_actors_do_nothing()
    ensures { UnbornDoNothing }
{}

/// An actor that is the only one stays the only one while it splits nobody.
pub fn lone_actors_stay_alone()
    ensures { LoneActorsStayAlone }
{}

/// Entries by others leave the hands of an actor that isn't joined, and the words of the places in
/// them.
pub fn others_leave_hands()
    ensures { OthersLeaveHands }
{}

/// Where some actors, the first one among them, add only each other, all entries are theirs.
pub fn entries_are_theirs()
    ensures { EntriesAreTheirs }
{}

/// The run word is at most 2.
pub fn run_word_is_small()
    ensures { RunWordIsSmall }
{}

/// An act leaves size and generation of a buffer in hand, also where it's the act of its holder.
pub fn held_buffers_stay()
    ensures { HeldBuffersStay }
{}

/// Where each buffer that a history brings has one size, each word that isn't Vacant has it.
pub fn one_size_stays()
    ensures { OneSizeStays }
{}

/// What an actor has taken changes by its own takes alone.
pub fn only_own_takes_count()
    ensures { OnlyOwnTakesCount }
{}

/// While nobody closes an open stream, each fill is put into the output.
pub fn open_streams_take_fills()
    ensures { OpenStreamsTakeFills }
{}

/// A started acquisition stays started while nobody stops it.
pub fn run_word_stays()
    ensures { RunWordStays }
{}

/// An empty output stays empty while nothing is filled.
pub fn empty_output_stays()
    ensures { EmptyOutputStays }
{}

/// Where one actor makes all takes that get a buffer, what it took is what was handed out.
pub fn handed_are_own()
    ensures { HandedAreOwn }
{}

/// The board before any act stands for the history with no entries.
pub fn empty_history()
    ensures { StandsFor empty_board [] }
{}

/// A board that stands for a history stands, after an entry, for the history with it.
pub fn histories_grow()
    ensures { HistoriesGrow }
{}

/// A board that stands for a history stands, after a list of one actor's events, for the history with
/// their entries.
pub fn histories_grow_by_lists()
    ensures { HistoriesGrowByLists }
{}

/// The history of `specs/Worked.antt`, with every kind of act and most of the refusals, is a run.
pub fn worked_history_runs()
    ensures { Run worked }
{}
