//! The marks of a run, by the journal of its reader.

ghost use Rattle.std.specs.Prelude.{◌≡◌, ◌<◌, ◌^◌, ◌++◌, [], ◌∷◌, map, IfOk, OnOk};
ghost use Rattle.std.specs.List.{AllByRecursion};
ghost use Rattle.live_recording.specs.Marks.{mark_of};

use acquisition_machine::Mark;
use gev_acq::Turn;
use gev_types::NoMemory;
use std::alloc::Global;

/// Adds the mark of a turn.
fn add_mark(marks: &mut Vec<Mark>, turn: Turn) -> Result<(), NoMemory>
    ensures items { OnOk result (marks.new.items ≡ marks.old.items ++ mark_of turn ∷ []) }
    ensures small { turn.moment < 2 ^ 64 }
{
    marks.push(Mark {
        moment: turn.moment,
        opened: turn.opened,
        claimed: turn.claim.is_some(),
    })?;
    Ok(())
}

/// A mark for each turn of the journal, whose moments are numbers of 64 bits.
pub(crate) fn marks_of(alloc: Global, journal: &[Turn]) -> Result<Vec<Mark>, NoMemory>
    ensures items { IfOk result (λ marks. marks.items ≡ map mark_of journal.now) }
    ensures small { IfOk result (λ _. AllByRecursion (λ e. e.moment < 2 ^ 64) journal.now) }
{
    let mut marks = Vec::new(alloc);
    for turn in 0..journal.len() {
        add_mark(&mut marks, journal[turn])?;
    }
    Ok(marks)
}
