//! The notes of what is told.

ghost use Rattle.std.specs.Prelude.{◌≡◌, ◌++◌, List, OnOk};
ghost use Rattle.script_trace.specs.Notes.{Note};
ghost use Rattle.script_trace.specs.Texts.{note_line, notes_text};
ghost use Rattle.note_tape.specs.Telling.{IsEnd, IsNoted, AreNoted};
ghost use Rattle.note_tape.specs.Counting.{with_notes};

use crate::counting::count;
use crate::told::Told;
use acq_core::Ended;
use gentl_types::BufferId;
use gev_types::NoMemory;
use note_report::{
    At, BlockCounts, note_absent, note_ask, note_done, note_drop, note_first, note_foreign,
    note_idle, note_ignored, note_leader, note_open, note_unbuffered, note_unwidened,
};

/// Adds the note of a block that retired.
fn print_done(
    at: At,
    end: &Ended,
    buffer: Option<BufferId>,
    filled: bool,
    out: &mut Vec<u8>,
) -> Result<(), NoMemory>
    ensures { (note : Note) → IsEnd end.now buffer filled note → OnOk result (out.new.items ≡ out.old.items ++ note_line at.line at.moment note) }
{
    match &end.held {
        Some(held) => match buffer {
            Some(id) => note_done(at, end.block, id, end.cause, &held.account, filled, out),
            None => Ok(()),
        },
        None => note_unbuffered(at, end.block, end.cause, out),
    }
}

/// Adds the note of what is told.
fn print_one(at: At, told: &Told, out: &mut Vec<u8>) -> Result<(), NoMemory>
    ensures { (note : Note) → IsNoted told.now note → OnOk result (out.new.items ≡ out.old.items ++ note_line at.line at.moment note) }
{
    match told {
        Told::Idle(bytes) => note_idle(at, *bytes, out),
        Told::Foreign(error) => note_foreign(at, *error, out),
        Told::Ignored(why, named) => note_ignored(at, *why, *named, out),
        Told::Unwidened(error) => note_unwidened(at, *error, out),
        Told::Leader(block, info) => note_leader(at, *block, *info, out),
        Told::Opened(block, buffer) => note_open(at, *block, *buffer, out),
        Told::Asked(resend, round) => {
            note_ask(at, resend.block, resend.first, resend.last, *round, out)
        }
        Told::First(block) => note_first(at, *block, out),
        Told::Absent(first, last) => note_absent(at, *first, *last, out),
        Told::Dropped(block, buffer) => note_drop(at, *block, *buffer, out),
        Told::Done {
            end,
            buffer,
            filled,
        } => print_done(at, end, *buffer, *filled, out),
    }
}

/// Adds the notes of what is told, each with its line feed, and counts it.
pub fn print(
    at: At,
    tape: &[Told],
    counts: &mut BlockCounts,
    out: &mut Vec<u8>,
) -> Result<(), NoMemory>
    ensures text { (notes : List Note) → AreNoted tape.now notes → OnOk result (out.new.items ≡ out.old.items ++ notes_text at.line at.moment notes) }
    ensures counts { (notes : List Note) → AreNoted tape.now notes → OnOk result (counts.new ≡ with_notes notes counts.old) }
{
    for told in tape {
        print_one(at, told, out)?;
        count(counts, told);
    }
    Ok(())
}
