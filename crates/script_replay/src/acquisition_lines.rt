//! Lines that drive the acquisition: `start`, `stop`, `t`, and `d` of the bytes of a datagram.

ghost use Rattle.std.specs.Prelude.{◌≡◌, ◌≢◌, ◌*◌, ◌≤◌, [], List, length, IsOk, OnOk, Some, None};
ghost use Rattle.hex.specs.Hex.{decode_of};
ghost use Rattle.acquisition_machine.specs.Machine.{Input, datagram as came};
ghost use Rattle.acquisition_machine.specs.Runs.{turn};
ghost use Rattle.acquisition_machine.specs.TurnLaws.{asked_by};
ghost use Rattle.acq_core.specs.Receiver.{config_of, open_count, asked_block, buffers, Stands};
ghost use Rattle.acq_core.specs.Waiting.{waiting_fills, waiting_requests};
ghost use Rattle.script_trace.specs.StreamLines.{StartLine, StopLine, TickLine, DatagramLine, Hears};
ghost use Rattle.script_replay.specs.declared.fill_counts.FillCounts.{FillCounts};
ghost use Rattle.script_replay.specs.Boards.{IsReady};
ghost use Rattle.script_replay.specs.Acquiring.{IsAtRest, AreAway, Settled, Drives};

use crate::answers::{line_done, line_refused};
use crate::board_lines::CALLER;
use crate::fill_counts::FillCounts;
use crate::hex_digits::decode;
use crate::retired::{fill_retired, give_claimed, write_requests};
use acq_core::{Acq, Need};
use board_model::{Mode, PlainBoard};
use gev_types::NoMemory;
use std::alloc::Global;

/// Starts the stream, and with it a new acquisition (DSStartAcquisition).
pub fn start(
    alloc: Global,
    board: &mut PlainBoard,
    acq: &mut Acq,
    out: &mut Vec<u8>,
) -> Result<(), NoMemory>
    requires rest { IsAtRest board.old acq.old }
    requires none_open { board.old.board.run ≢ 1 → open_count acq.old ≡ 0 }
    requires empty { out.old.items ≡ [] }
    ensures drives { OnOk result ((a : FillCounts) → Drives StartLine 0 board.old acq.old a out.new.items board.new acq.new a) }
    ensures rest { IsAtRest board.new acq.new }
    ensures config { config_of acq.new ≡ config_of acq.old }
{
    match board.ds_start(CALLER) {
        Ok(()) => {
            acq.restart();
            line_done(alloc, "start", out)
        }
        Err(error) => line_refused(alloc, "start", error, out),
    }
}

/// Stops the stream (DSStopAcquisition, with flags 0 or 1 for a kill stop), and with it the acquisition:
/// each open block retires as it is, and its buffer is filled.
pub(crate) fn stop(
    alloc: Global,
    board: &mut PlainBoard,
    acq: &mut Acq,
    counts: &mut FillCounts,
    mode: Mode,
    flags: u32,
    out: &mut Vec<u8>,
) -> Result<(), NoMemory>
    requires rest { IsAtRest board.old acq.old }
    requires empty { out.old.items ≡ [] }
    ensures drives { OnOk result (Drives (λ t part. t.mode ≡ mode → StopLine (config_of acq.old) t flags part) 0 board.old acq.old counts.old out.new.items board.new acq.new counts.new) }
    ensures rest { IsAtRest board.new acq.new }
    ensures config { config_of acq.new ≡ config_of acq.old }
{
    match board.ds_stop(CALLER, flags) {
        Ok(()) => {
            acq.stop();
            fill_retired(board, acq, counts, mode);
            line_done(alloc, "stop", out)
        }
        Err(error) => line_refused(alloc, "stop", error, out),
    }
}

/// Tells the moment, in milliseconds: old blocks retire and their buffers are filled, and a line is added
/// for each request of packets that are missing.
pub(crate) fn tick(
    alloc: Global,
    board: &mut PlainBoard,
    acq: &mut Acq,
    counts: &mut FillCounts,
    mode: Mode,
    moment: u64,
    out: &mut Vec<u8>,
) -> Result<(), NoMemory>
    requires rest { IsAtRest board.old acq.old }
    requires empty { out.old.items ≡ [] }
    ensures drives { OnOk result (Drives (λ t part. t.mode ≡ mode → TickLine (config_of acq.old) t moment part) 0 board.old acq.old counts.old out.new.items board.new acq.new counts.new) }
    ensures rest { OnOk result (IsAtRest board.new acq.new) }
    ensures config { config_of acq.new ≡ config_of acq.old }
{
    acq.tick(moment);
    fill_retired(board, acq, counts, mode);
    write_requests(alloc, acq, out)
}

/// Tells a datagram, and fills the buffers that come back. The answer is what the datagram needs.
fn fill_what_retires(
    board: &mut PlainBoard,
    acq: &mut Acq,
    counts: &mut FillCounts,
    mode: Mode,
    bytes: &[u8],
) -> Need
    requires ready { IsReady board.old }
    requires no_fill { waiting_fills acq.old ≡ [] }
    requires no_request { waiting_requests acq.old ≡ [] }
    requires away { AreAway board.old (buffers acq.old) }
    ensures need { (q : List Input) → Stands acq.old q → (turn (config_of acq.old) q (came bytes.now)).need ≡ Some result }
    ensures settled { Settled mode (came bytes.now) board.old acq.old counts.old board.new acq.new counts.new }
    ensures ready { IsReady board.new }
    ensures no_fill { waiting_fills acq.new ≡ [] }
    ensures no_request { waiting_requests acq.new ≡ [] }
    ensures asked { asked_block acq.new ≡ asked_by (Some result) }
    ensures away { AreAway board.new (buffers acq.new) }
{
    let need = acq.datagram(bytes);
    fill_retired(board, acq, counts, mode);
    need
}

/// Tells a datagram. Where it wants a buffer, one is claimed by the mode, and the datagram is told again.
pub fn receive(
    board: &mut PlainBoard,
    acq: &mut Acq,
    counts: &mut FillCounts,
    mode: Mode,
    bytes: &[u8],
)
    requires rest { IsAtRest board.old acq.old }
    ensures drives { Drives (λ t part. t.mode ≡ mode → Hears (config_of acq.old) t bytes.now (asked_by (turn (config_of acq.old) t.inputs (came bytes.now)).need) part) 0 board.old acq.old counts.old [] board.new acq.new counts.new }
    ensures rest { IsAtRest board.new acq.new }
    ensures config { config_of acq.new ≡ config_of acq.old }
{
    match fill_what_retires(board, acq, counts, mode, bytes) {
        Need::Buffer(_block) => {
            let _got = give_claimed(board, acq, counts, mode);
            let _again = fill_what_retires(board, acq, counts, mode, bytes);
        }
        Need::Done => {}
        Need::Ignored(_why) => {}
    }
}

/// Tells the datagram that these hex digits spell, where the stream is running: what it wants, is claimed,
/// and the buffers that come back are filled. The bytes are decoded into the room, which is at least half
/// as long as the digits. The answer is how many datagrams were idle: 1 where the stream isn't running,
/// else 0.
pub(crate) fn datagram(
    board: &mut PlainBoard,
    acq: &mut Acq,
    counts: &mut FillCounts,
    mode: Mode,
    digits: &[u8],
    room: &mut [u8],
) -> u64
    requires rest { IsAtRest board.old acq.old }
    requires spelled { IsOk (decode_of digits.now) }
    requires room { length digits.now ≤ 2 * length room.old }
    ensures drives { Drives (λ t part. t.mode ≡ mode → DatagramLine (config_of acq.old) t digits.now part) result board.old acq.old counts.old [] board.new acq.new counts.new }
    ensures rest { IsAtRest board.new acq.new }
    ensures config { config_of acq.new ≡ config_of acq.old }
{
    if board.run() != 1 {
        return 1;
    }
    let bytes = &mut room[..digits.len() / 2];
    decode(digits, bytes);
    receive(board, acq, counts, mode, bytes);
    0
}
