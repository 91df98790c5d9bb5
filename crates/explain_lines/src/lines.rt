//! Lines that feed the acquisition, and tell of it: `stop`, `t` and `d`.

ghost use Rattle.std.specs.Prelude.{◌≡◌, ◌≢◌, ◌≤◌, ◌+◌, ◌*◌, ◌++◌, [], ℕ, List, true, length, OnOk, Ok};
ghost use Rattle.hex.specs.Hex.{decode_of, encode_lower};
ghost use Rattle.gev_script.specs.Lines as script_line;
ghost use Rattle.acq_core.specs.Receiver.{config_of};
ghost use Rattle.script_trace.specs.Wide.{is_standard_at};
ghost use Rattle.script_replay.specs.Acquiring.{IsAtRest, Drives};
ghost use Rattle.script_replay.specs.Replays.{IsReplaying, Fits};
ghost use Rattle.explain_lines.specs.Hearing.{StopsIn, TellsPart, TicksTold};
ghost use Rattle.explain_lines.specs.Telling.{GoesTold, TellsLine};

use crate::asking::tape_requests;
use crate::hearing::receive;
use crate::retired::tape_retired;
use acq_core::Acq;
use board_model::{Mode, PlainBoard};
use gev_types::NoMemory;
use note_tape::Told;
use script_replay::{
    CALLER, FillCounts, Running, Script, decode, is_standard, line_done, line_refused,
};
use std::alloc::Global;

/// Stops the stream (DSStopAcquisition, with flags 0 or 1 for a kill stop), and with it the acquisition, and
/// tells what retires.
fn stop_stream(
    alloc: Global,
    board: &mut PlainBoard,
    acq: &mut Acq,
    counts: &mut FillCounts,
    mode: Mode,
    flags: u32,
    tape: &mut Vec<Told>,
    out: &mut Vec<u8>,
) -> Result<(), NoMemory>
    requires rest { IsAtRest board.old acq.old }
    requires empty { out.old.items ≡ [] }
    ensures drives { OnOk result (Drives (λ t part. StopsIn (config_of acq.old) mode flags t part × TellsPart (config_of acq.old) tape.old.items tape.new.items t part) 0 board.old acq.old counts.old out.new.items board.new acq.new counts.new) }
    ensures rest { OnOk result (IsAtRest board.new acq.new) }
    ensures config { OnOk result (config_of acq.new ≡ config_of acq.old) }
{
    match board.ds_stop(CALLER, flags) {
        Ok(()) => {
            acq.tell_ends();
            acq.stop();
            tape_retired(board, acq, counts, mode, tape)?;
            line_done(alloc, "stop", out)
        }
        Err(error) => line_refused(alloc, "stop", error, out),
    }
}

/// Runs a `stop` line as `script_replay` does: adds its report to the empty `out`, and to the empty tape what
/// retires.
pub fn stop(
    alloc: Global,
    script: &mut Script,
    flags: u32,
    tape: &mut Vec<Told>,
    out: &mut Vec<u8>,
) -> Result<(), NoMemory>
    requires keeps { IsReplaying script.old.running }
    requires untold { tape.old.items ≡ [] }
    requires empty { out.old.items ≡ [] }
    ensures { OnOk result (TellsLine (script_line.stop flags) script.old out.new.items tape.new.items script.new) }
{
    let running = &mut script.running;
    stop_stream(
        alloc,
        &mut running.board,
        &mut running.acq,
        &mut running.counts,
        running.mode,
        flags,
        tape,
        out,
    )
}

/// What is told of time.
#[derive(Drop)]
struct Moment {
    /// The moment, in milliseconds.
    moment: u64,
    /// Whether requests are written in the standard form.
    standard: bool,
}

/// Tells the moment: old blocks retire, are filled and told, and each request is written, in the standard form or as it
/// is, and told.
fn tick_stream(
    alloc: Global,
    board: &mut PlainBoard,
    acq: &mut Acq,
    counts: &mut FillCounts,
    mode: Mode,
    told: Moment,
    tape: &mut Vec<Told>,
    out: &mut Vec<u8>,
) -> Result<(), NoMemory>
    requires rest { IsAtRest board.old acq.old }
    requires empty { out.old.items ≡ [] }
    ensures told { OnOk result (TicksTold mode told.moment told.standard board.old acq.old counts.old tape.old.items out.new.items board.new acq.new counts.new tape.new.items) }
    ensures rest { OnOk result (IsAtRest board.new acq.new) }
{
    acq.tell_ends();
    acq.tick(told.moment);
    tape_retired(board, acq, counts, mode, tape)?;
    tape_requests(alloc, acq, told.standard, tape, out)
}

/// Runs a `t` line as `script_replay` does: adds its report to the empty `out`, and to the empty tape what
/// retires and what is asked for. Requests are written in the standard form once a datagram was widened.
pub fn tick(
    alloc: Global,
    script: &mut Script,
    moment: u64,
    tape: &mut Vec<Told>,
    out: &mut Vec<u8>,
) -> Result<(), NoMemory>
    requires keeps { IsReplaying script.old.running }
    requires untold { tape.old.items ≡ [] }
    requires empty { out.old.items ≡ [] }
    ensures { OnOk result (TellsLine (script_line.tick moment) script.old out.new.items tape.new.items script.new) }
{
    let told = Moment {
        moment,
        standard: script.widening.widened,
    };
    let running = &mut script.running;
    tick_stream(
        alloc,
        &mut running.board,
        &mut running.acq,
        &mut running.counts,
        running.mode,
        told,
        tape,
        out,
    )
}

/// Tells the acquisition the bytes of a datagram, where the stream is running.
fn receive_bytes(running: &mut Running, bytes: &[u8], tape: &mut Vec<Told>) -> Result<(), NoMemory>
    requires keeps { IsReplaying running.old }
    requires runs { running.old.board.board.run ≡ 1 }
    requires untold { tape.old.items ≡ [] }
    ensures goes { OnOk result ((digits : List ℕ) → decode_of digits ≡ Ok bytes.now → GoesTold (script_line.datagram digits) running.old [] tape.new.items running.new) }
    ensures wide { OnOk result (GoesTold (script_line.datagram (encode_lower bytes.now)) running.old [] tape.new.items running.new) }
{
    receive(
        &mut running.board,
        &mut running.acq,
        &mut running.counts,
        running.mode,
        bytes,
        tape,
    )
}

/// Counts and tells a datagram of so many bytes that came while the stream wasn't running.
fn idle(running: &mut Running, bytes: u64, tape: &mut Vec<Told>) -> Result<(), NoMemory>
    requires keeps { IsReplaying running.old }
    requires stopped { running.old.board.board.run ≢ 1 }
    requires untold { tape.old.items ≡ [] }
    ensures { OnOk result ((digits spelled : List ℕ) → decode_of digits ≡ Ok spelled → length spelled ≡ bytes
        → GoesTold (script_line.datagram digits) running.old [] tape.new.items running.new) }
{
    tape.push(Told::Idle(bytes))?;
    running.idle = running.idle.saturating_add(1);
    Ok(())
}

/// Tells the acquisition a datagram with standard identifiers as one with extended ones, or counts and tells
/// that it is refused.
#[tactic(auto, using(gvsp_std::proofs::Written::widened_fits))]
fn widen_bytes(
    script: &mut Script,
    bytes: &[u8],
    wide_room: &mut [u8],
    tape: &mut Vec<Told>,
) -> Result<(), NoMemory>
    requires keeps { IsReplaying script.old.running }
    requires standard { is_standard_at script.old.widening.version script.old.running.board.board.run script.old.widening.widener bytes.now ≡ true }
    requires room { length bytes.now + 12 ≤ length wide_room.old }
    requires untold { tape.old.items ≡ [] }
    ensures { OnOk result ((digits : List ℕ) → decode_of digits ≡ Ok bytes.now → TellsLine (script_line.datagram digits) script.old [] tape.new.items script.new) }
{
    match script.widening.widener.widen(bytes, wide_room) {
        Ok(len) => {
            script.widening.widened = true;
            receive_bytes(&mut script.running, &wide_room[..len], tape)
        }
        Err(refusal) => {
            script.widening.refused = script.widening.refused.saturating_add(1);
            tape.push(Told::Unwidened(refusal))?;
            Ok(())
        }
    }
}

/// Runs a `d` line as `script_replay` does, and adds to the empty tape what becomes of its datagram. The bytes of
/// the datagram come into the room, and those with extended identifiers into the wide room.
pub fn datagram(
    script: &mut Script,
    digits: &[u8],
    room: &mut [u8],
    wide_room: &mut [u8],
    tape: &mut Vec<Told>,
) -> Result<(), NoMemory>
    requires keeps { IsReplaying script.old.running }
    requires fits { Fits (length room.old) digits.now }
    requires wide { length room.old + 12 ≤ length wide_room.old }
    requires untold { tape.old.items ≡ [] }
    ensures { OnOk result (TellsLine (script_line.datagram digits.now) script.old [] tape.new.items script.new) }
{
    let run = script.running.board.run();
    if run != 1 {
        return idle(&mut script.running, (digits.len() / 2) as u64, tape);
    }
    let bytes = &mut room[..digits.len() / 2];
    decode(digits, bytes);
    let top = script.widening.widener.top();
    if is_standard(script.widening.version, run, top, bytes) {
        return widen_bytes(script, bytes, wide_room, tape);
    }
    receive_bytes(&mut script.running, bytes, tape)
}
