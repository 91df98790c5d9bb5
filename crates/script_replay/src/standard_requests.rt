//! A moment, behind which requests are written in the standard form.

ghost use Rattle.std.specs.Prelude.{◌≡◌, ◌++◌, true, [], OnOk};
ghost use Rattle.gev_script.specs.Lines as script_line;
ghost use Rattle.acq_core.specs.Receiver.{KeepsBlocks};
ghost use Rattle.acq_core.specs.Waiting.{waiting_fills, waiting_requests};
ghost use Rattle.gev_report.specs.ReplayLines.{request_line};
ghost use Rattle.script_trace.specs.Wide.{is_narrow, asked_in, standard_form};
ghost use Rattle.script_replay.specs.Replays.{IsReplaying, DoesLine};
ghost use Rattle.script_replay.specs.Acquiring.{IsAtRest};
ghost use Rattle.script_replay.specs.Widely.{standard_lines_of, TicksStandard};

use crate::fill_counts::FillCounts;
use crate::retired::fill_retired;
use crate::script::Script;
use acq_core::Acq;
use board_model::{Mode, PlainBoard};
use gev_report::line_request;
use gev_types::NoMemory;
use gvcp_wire::Resend;
use gvsp_std::write_resend_std;
use std::alloc::Global;
use wire_fields::{u16_at, u32_at, u64_at};

/// What a packet resend command with extended identifiers asks for.
fn asked_by(command: &[u8; 28]) -> Resend
    ensures { result ≡ asked_in command.now }
{
    Resend {
        channel: u16_at(command, 8),
        first: u32_at(command, 12),
        last: u32_at(command, 16),
        block: u64_at(command, 20),
    }
}

/// Whether its ids fit the standard form.
fn is_narrow(resend: Resend) -> bool
    ensures { result ≡ is_narrow resend }
{
    1 <= resend.block && resend.first < 1 << 24 && resend.last < 1 << 24
}

/// Adds the line of a request, in the standard form.
pub fn line_standard(alloc: Global, command: &[u8; 28], out: &mut Vec<u8>) -> Result<(), NoMemory>
    ensures { OnOk result (out.new.items ≡ out.old.items ++ request_line (standard_form command.now)) }
{
    let resend = asked_by(command);
    if !is_narrow(resend) {
        return line_request(alloc, command, out);
    }
    let mut bytes = [0; 20];
    write_resend_std(&mut bytes, u16_at(command, 6), resend);
    line_request(alloc, &bytes, out)
}

/// Adds the line of each request that waits in the receiver, first in first, in the standard form.
fn write_standard(alloc: Global, acq: &mut Acq, out: &mut Vec<u8>) -> Result<(), NoMemory>
    ensures lines { OnOk result (out.new.items ≡ out.old.items ++ standard_lines_of (waiting_requests acq.old)) }
    ensures no_request { OnOk result (waiting_requests acq.new ≡ []) }
    ensures fills { waiting_fills acq.new ≡ waiting_fills acq.old }
    ensures rest { KeepsBlocks acq.old acq.new }
{
    while let Some(bytes) = acq.next_request() {
        line_standard(alloc, &bytes, out)?;
    }
    Ok(())
}

/// Tells the moment, in milliseconds, as `tick` does, and adds a line for each request in the standard form.
fn tick(
    alloc: Global,
    board: &mut PlainBoard,
    acq: &mut Acq,
    counts: &mut FillCounts,
    mode: Mode,
    moment: u64,
    out: &mut Vec<u8>,
) -> Result<(), NoMemory>
    requires { IsAtRest board.old acq.old }
    ensures told { OnOk result (TicksStandard mode moment board.old acq.old counts.old out.old.items out.new.items board.new acq.new counts.new) }
    ensures rest { OnOk result (IsAtRest board.new acq.new) }
{
    acq.tick(moment);
    fill_retired(board, acq, counts, mode);
    write_standard(alloc, acq, out)
}

/// Runs the line of a moment behind a datagram that was widened.
pub(crate) fn tick_standard(
    alloc: Global,
    script: &mut Script,
    moment: u64,
    out: &mut Vec<u8>,
) -> Result<(), NoMemory>
    requires keeps { IsReplaying script.old.running }
    requires widened { script.old.widening.widened ≡ true }
    requires empty { out.old.items ≡ [] }
    ensures { OnOk result (DoesLine (script_line.tick moment) script.old out.new.items script.new) }
{
    tick(
        alloc,
        &mut script.running.board,
        &mut script.running.acq,
        &mut script.running.counts,
        script.running.mode,
        moment,
        out,
    )
}
