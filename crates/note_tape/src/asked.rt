//! Packets that are asked for.

ghost use Rattle.std.specs.Prelude.{◌≡◌, ◌∷◌, [], OnOk};
ghost use Rattle.script_trace.specs.Notes.{asks};
ghost use Rattle.note_tape.specs.Tells.{Tells};

use crate::Told;
use gev_types::NoMemory;
use gvcp_wire::Resend;

/// Puts a request on the tape, in the round of this number of its block.
pub fn tape_asked(tape: &mut Vec<Told>, resend: Resend, round: u8) -> Result<(), NoMemory>
    ensures { OnOk result (Tells tape.old.items tape.new.items (asks resend.block (resend.first, resend.last) round ∷ [])) }
{
    tape.push(Told::Asked(resend, round))?;
    Ok(())
}
