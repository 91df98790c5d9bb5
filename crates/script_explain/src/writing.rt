//! The notes of a line that was run, and its report behind them.

ghost use Rattle.std.specs.Prelude.{◌≡◌, ◌++◌, List, [], OnOk};
ghost use Rattle.script_trace.specs.Notes.{Note};
ghost use Rattle.script_trace.specs.Texts.{words_line, notes_text};
ghost use Rattle.note_report.specs.Blocks.{counts_words};
ghost use Rattle.note_tape.specs.Telling.{AreNoted};
ghost use Rattle.note_tape.specs.Counting.{with_notes};
ghost use Rattle.script_explain.specs.Explains.{Writes};

use crate::explained::Explained;
use crate::rooms::Rooms;
use gev_types::NoMemory;
use note_report::{At, BlockCounts, note_blocks};
use note_tape::{Told, print};
use script_runs::Ran;

/// Adds the notes of what is told to the empty `out`, and the report behind them, and counts the notes.
fn write_notes(
    at: At,
    tape: &[Told],
    report: &[u8],
    counts: &mut BlockCounts,
    out: &mut Vec<u8>,
) -> Result<(), NoMemory>
    requires empty { out.old.items ≡ [] }
    ensures text { (notes : List Note) → AreNoted tape.now notes → OnOk result (out.new.items ≡ notes_text at.line at.moment notes ++ report.now) }
    ensures counts { (notes : List Note) → AreNoted tape.now notes → OnOk result (counts.new ≡ with_notes notes counts.old) }
{
    print(at, tape, counts, out)?;
    out.extend_from_slice(report)?;
    Ok(())
}

/// Adds the note that counts blocks to the empty `out`, and the last lines of the report behind it; so many blocks
/// are still open.
fn write_blocks(
    at: At,
    counts: &BlockCounts,
    still_open: u8,
    last_lines: &[u8],
    out: &mut Vec<u8>,
) -> Result<(), NoMemory>
    requires empty { out.old.items ≡ [] }
    ensures { OnOk result (out.new.items ≡ words_line at.line at.moment (counts_words counts.now still_open) ++ last_lines.now) }
{
    note_blocks(at, counts, still_open, out)?;
    out.extend_from_slice(last_lines)?;
    Ok(())
}

/// Adds the notes of the line with this number to the empty `out`, where it was run, and its report behind them.
/// The moment in a note is the one after the line.
pub(crate) fn write_line(
    explained: &mut Explained,
    ran: Ran,
    number: u32,
    rooms: &Rooms,
    out: &mut Vec<u8>,
) -> Result<(), NoMemory>
    requires empty { out.old.items ≡ [] }
    ensures { OnOk result (Writes ran number rooms.now.tape.items rooms.now.report.items explained.old out.new.items explained.new) }
{
    let acq = &explained.script.running.acq;
    let at = At {
        line: number,
        moment: acq.now(),
    };
    let report = rooms.report.as_slice();
    match ran {
        Ran::GoesOn => write_notes(
            at,
            rooms.tape.as_slice(),
            report,
            &mut explained.counts,
            out,
        ),
        Ran::Ended => write_blocks(at, &explained.counts, acq.open_blocks(), report, out),
    }
}
