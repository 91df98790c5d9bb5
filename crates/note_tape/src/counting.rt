//! What is told of blocks, counted.

ghost use Rattle.std.specs.Prelude.{◌≡◌, [], MatchOption};
ghost use Rattle.script_trace.specs.Notes.{Note};
ghost use Rattle.note_tape.specs.Telling.{IsNoted};
ghost use Rattle.note_tape.specs.Counting.{tally, counted_up, with_end, with_note};

use crate::told::Told;
use acq_core::Ended;
use note_report::BlockCounts;

/// The counts before anything is told.
pub fn none_counted() -> BlockCounts
    ensures { result ≡ tally [] }
{
    BlockCounts {
        opened: 0,
        complete: 0,
        incomplete: 0,
        unbuffered: 0,
        absent: 0,
        dropped: 0,
    }
}

/// Counts a block that retired with a buffer, with a whole image or without.
fn count_whole(counts: &mut BlockCounts, complete: bool)
    ensures { counts.new ≡ with_end complete counts.old }
{
    if complete {
        counts.complete = counts.complete.saturating_add(1);
    } else {
        counts.incomplete = counts.incomplete.saturating_add(1);
    }
}

/// Counts a block that retired.
fn count_end(counts: &mut BlockCounts, end: &Ended)
    ensures { MatchOption end.now.held (counts.new ≡ record counts.old { unbuffered = counted_up counts.old.unbuffered 1 })
        (λ held. counts.new ≡ with_end held.account.complete counts.old) }
{
    match &end.held {
        Some(held) => count_whole(counts, held.account.complete),
        None => counts.unbuffered = counts.unbuffered.saturating_add(1),
    }
}

/// Counts what is told.
pub(crate) fn count(counts: &mut BlockCounts, told: &Told)
    ensures { (note : Note) → IsNoted told.now note → counts.new ≡ with_note note counts.old }
{
    match told {
        Told::Opened(_, _) => counts.opened = counts.opened.saturating_add(1),
        Told::Absent(first, last) => {
            let ids = last.saturating_sub(*first).saturating_add(1);
            counts.absent = counts.absent.saturating_add(ids);
        }
        Told::Dropped(_, _) => counts.dropped = counts.dropped.saturating_add(1),
        Told::Done { end, .. } => count_end(counts, end),
        Told::Idle(_) => {}
        Told::Foreign(_) => {}
        Told::Ignored(_, _) => {}
        Told::Unwidened(_) => {}
        Told::Leader(_, _) => {}
        Told::Asked(_, _) => {}
        Told::First(_) => {}
    }
}
