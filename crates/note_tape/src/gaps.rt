//! Blocks that retire.

ghost use Rattle.std.specs.Prelude.{◌≡◌, ◌≤◌, ◌<◌, ◌^◌, ◌∷◌, [], ℕ, not, OnOk, Option, Some};
ghost use Rattle.gentl_types.specs.declared.buffer_id.BufferId.{BufferId as Id};
ghost use Rattle.board_machine.specs.Machine.{Board};
ghost use Rattle.board_machine.specs.Ids.{buffer_at};
ghost use Rattle.acquisition_machine.specs.declared.config.AcqConfig.{AcqConfig};
ghost use Rattle.acquisition_machine.specs.Blocks.{Given, Open, Cause as Reason};
ghost use Rattle.acquisition_machine.specs.Machine.{shown};
ghost use Rattle.acquisition_machine.specs.Blocks.{cause_of};
ghost use Rattle.acq_core.specs.Ending.{end_of};
ghost use Rattle.script_trace.specs.Notes.{drops};
ghost use Rattle.script_trace.specs.Inputs.{gap};
ghost use Rattle.note_tape.specs.Tells.{Tells, own_note, buffer_of, IsFilledOn};

use crate::Told;
use acq_core::Ended;
use gentl_types::BufferId;
use gev_types::NoMemory;

/// Puts on the tape which blocks were never opened between the floor and a block that retires.
pub fn tape_gap(tape: &mut Vec<Told>, floor: Option<u64>, block: u64) -> Result<(), NoMemory>
    ensures { (low : ℕ) → floor ≡ shown low → OnOk result (Tells tape.old.items tape.new.items (gap low block)) }
{
    match floor {
        Some(floor) => {
            if floor >= block {
                return Ok(());
            }
            if floor == 1 {
                tape.push(Told::First(block))?;
            } else {
                tape.push(Told::Absent(floor, block - 1))?;
            }
            Ok(())
        }
        None => Ok(()),
    }
}

/// Puts an image of this block, in this buffer, on the tape, which gave way to another.
pub fn tape_dropped(tape: &mut Vec<Told>, block: u64, buffer: BufferId) -> Result<(), NoMemory>
    ensures { OnOk result (Tells tape.old.items tape.new.items (drops block buffer ∷ [])) }
{
    tape.push(Told::Dropped(block, buffer))?;
    Ok(())
}

/// Puts a block that retired on the tape: with its buffer, which was filled or not, or without one.
pub fn tape_done(
    tape: &mut Vec<Told>,
    end: Ended,
    buffer: Option<BufferId>,
    filled: bool,
) -> Result<(), NoMemory>
    ensures { (c : AcqConfig) (b : Board) (low : ℕ) (cause : Reason) (o : Open) → end ≡ end_of c.p low (cause_of cause) o
        → buffer ≡ buffer_of b o.given → IsFilledOn b o.given filled
        → OnOk result (Tells tape.old.items tape.new.items (own_note c b o cause ∷ [])) }
{
    tape.push(Told::Done {
        end,
        buffer,
        filled,
    })?;
    Ok(())
}
