//! Requests that are written, and put on the tape.

ghost use Rattle.std.specs.Prelude.{◌≡◌, ◌++◌, [], Bool, List, OnOk};
ghost use Rattle.gev_report.specs.ReplayLines.{request_line};
ghost use Rattle.acquisition_machine.specs.Machine.{Input};
ghost use Rattle.acquisition_machine.specs.Runs.{After};
ghost use Rattle.acq_core.specs.Receiver.{config_of, Stands, KeepsBlocks};
ghost use Rattle.acq_core.specs.Waiting.{waiting_fills, waiting_requests, waiting_resends};
ghost use Rattle.note_tape.specs.Tells.{Tells};
ghost use Rattle.explain_lines.specs.Asking.{form_of, lines_by, resend_notes};

use acq_core::Acq;
use gev_report::line_request;
use gev_types::NoMemory;
use note_tape::{Told, tape_asked};
use script_replay::line_standard;
use std::alloc::Global;

/// Adds the line of a request, in the standard form or as it is.
fn write_request(
    alloc: Global,
    standard: bool,
    command: &[u8; 28],
    out: &mut Vec<u8>,
) -> Result<(), NoMemory>
    ensures { OnOk result (out.new.items ≡ out.old.items ++ request_line (form_of standard command.now)) }
{
    if standard {
        return line_standard(alloc, command, out);
    }
    line_request(alloc, command, out)
}

/// Adds the line of each request that waits in the receiver, first in first, and puts it on the tape with the
/// number of its block's round.
pub(crate) fn tape_requests(
    alloc: Global,
    acq: &mut Acq,
    standard: bool,
    tape: &mut Vec<Told>,
    out: &mut Vec<u8>,
) -> Result<(), NoMemory>
    ensures lines { OnOk result (out.new.items ≡ out.old.items ++ lines_by standard (waiting_requests acq.old)) }
    ensures told { OnOk result ((q : List Input) → Stands acq.old q
        → Tells tape.old.items tape.new.items (resend_notes (After (config_of acq.old) q).opens (waiting_resends acq.old))) }
    ensures no_request { OnOk result (waiting_requests acq.new ≡ []) }
    ensures fills { OnOk result (waiting_fills acq.new ≡ waiting_fills acq.old) }
    ensures rest { OnOk result (KeepsBlocks acq.old acq.new) }
{
    while let Some((resend, round)) = acq.first_request() {
        tape_asked(tape, resend, round)?;
        match acq.next_request() {
            Some(command) => write_request(alloc, standard, &command, out)?,
            None => {}
        }
    }
    Ok(())
}
