//! Lines of both versions: datagrams with standard identifiers, and requests in the standard form.

ghost use Rattle.std.specs.Prelude.{◌≡◌, ◌≤◌, ◌+◌, ◌*◌, ℕ, Bool, true, [], length, OnOk, if◌then◌else◌};
ghost use Rattle.hex.specs.Hex.{encode_lower};
ghost use Rattle.gev_script.specs.Lines as script_line;
ghost use Rattle.gev_script.specs.Lines.{ScriptLine, view};
ghost use Rattle.script_trace.specs.Wide.{is_standard_at, is_started_at};
ghost use Rattle.script_replay.specs.Replays.{IsReplaying, IsRunIn, IsOther, Fits, Goes, DoesLine, DoneLine};
ghost use Rattle.script_replay.specs.Widely.{DoesBytes};

use crate::acquisition_lines::receive;
use crate::adding::{run_adding, run_datagram};
use crate::datagram_rooms::{DatagramRooms, ROOM};
use crate::hex_digits::decode;
use crate::running::Running;
use crate::script::Script;
use crate::standard_requests::tick_standard;
use crate::widening::Widening;
use gev_script::Line;
use gev_types::NoMemory;
use gvsp_std::Widener;
use std::alloc::Global;

/// The most bytes of a header with standard identifiers.
const HEADER_SIZE: usize = 8;

/// The bit of the format byte that says extended identifiers.
const EXTENDED: u8 = 0x80;

/// The greatest block behind which a datagram is widened.
const MOST_BLOCK: u64 = 1 << 63;

/// Tells the acquisition a datagram, where the stream is running.
fn receive_bytes(running: &mut Running, bytes: &[u8])
    requires keeps { IsReplaying running.old }
    requires runs { running.old.board.board.run ≡ 1 }
    ensures goes { Goes (script_line.datagram (encode_lower bytes.now)) running.old [] running.new }
{
    receive(
        &mut running.board,
        &mut running.acq,
        &mut running.counts,
        running.mode,
        bytes,
    );
}

/// Whether a datagram is to be widened.
pub fn is_standard(version: u8, run: u8, top: u64, bytes: &[u8]) -> bool
    ensures { result ≡ is_standard_at version run top bytes.now }
{
    version == 2
        && run == 1
        && top <= MOST_BLOCK
        && bytes.len() >= HEADER_SIZE
        && bytes[4] < EXTENDED
}

/// Tells the acquisition a datagram with standard identifiers as one with extended ones, or counts that it
/// is refused.
#[tactic(auto, using(gvsp_std::proofs::Written::widened_fits))]
fn widen_bytes(script: &mut Script, bytes: &[u8], wide_room: &mut [u8])
    requires keeps { IsReplaying script.old.running }
    requires standard { is_standard_at script.old.widening.version script.old.running.board.board.run script.old.widening.widener bytes.now ≡ true }
    requires room { length bytes.now + 12 ≤ length wide_room.old }
    ensures { (l : ScriptLine) → DoesBytes l bytes.now script.old script.new }
{
    match script.widening.widener.widen(bytes, wide_room) {
        Ok(len) => {
            script.widening.widened = true;
            receive_bytes(&mut script.running, &wide_room[..len]);
        }
        Err(_refusal) => {
            script.widening.refused = script.widening.refused.saturating_add(1);
        }
    }
}

/// Runs a `d` line. The bytes of the datagram come into the room, and those with extended identifiers into
/// the wide room.
fn run_any_datagram(script: &mut Script, digits: &[u8], room: &mut [u8], wide_room: &mut [u8])
    requires keeps { IsReplaying script.old.running }
    requires fits { Fits (length room.old) digits.now }
    requires wide { length room.old + 12 ≤ length wide_room.old }
    ensures { DoesLine (script_line.datagram digits.now) script.old [] script.new }
{
    if script.widening.version != 2 {
        run_datagram(&mut script.running, digits, room);
        return;
    }
    let bytes = &mut room[..digits.len() / 2];
    decode(digits, bytes);
    let run = script.running.board.run();
    let top = script.widening.widener.top();
    if is_standard(script.widening.version, run, top, bytes) {
        widen_bytes(script, bytes, wide_room);
        return;
    }
    run_datagram(&mut script.running, digits, room);
}

/// Runs a line that is no datagram and no moment.
fn run_other(
    alloc: Global,
    script: &mut Script,
    rooms: &mut DatagramRooms,
    line: Line<'_>,
    out: &mut Vec<u8>,
) -> Result<(), NoMemory>
    requires keeps { IsReplaying script.old.running }
    requires run { IsRunIn ROOM (view line) }
    requires other { IsOther (view line) }
    requires empty { out.old.items ≡ [] }
    ensures { OnOk result (DoesLine (view line.entry) script.old out.new.items script.new) }
{
    run_adding(alloc, &mut script.running, rooms, line, out)
}

/// Runs the line of a moment. Requests are written in the standard form once a datagram was widened.
fn run_tick(
    alloc: Global,
    script: &mut Script,
    rooms: &mut DatagramRooms,
    moment: u64,
    out: &mut Vec<u8>,
) -> Result<(), NoMemory>
    requires keeps { IsReplaying script.old.running }
    requires empty { out.old.items ≡ [] }
    ensures { OnOk result (DoesLine (script_line.tick moment) script.old out.new.items script.new) }
{
    if script.widening.widened {
        return tick_standard(alloc, script, moment, out);
    }
    run_adding(
        alloc,
        &mut script.running,
        rooms,
        Line::Tick { moment },
        out,
    )
}

/// Runs a line that adds to the trace, or that is a refused datagram, and adds its report to the empty `out`.
fn run_any(
    alloc: Global,
    script: &mut Script,
    rooms: &mut DatagramRooms,
    line: Line<'_>,
    out: &mut Vec<u8>,
) -> Result<(), NoMemory>
    requires keeps { IsReplaying script.old.running }
    requires run { IsRunIn ROOM (view line) }
    requires empty { out.old.items ≡ [] }
    ensures { OnOk result (DoesLine (view line.entry) script.old out.new.items script.new) }
{
    match line {
        Line::Datagram { hex } => {
            run_any_datagram(
                script,
                hex,
                rooms.room.as_mut_slice(),
                rooms.wide_room.as_mut_slice(),
            );
            Ok(())
        }
        Line::Tick { moment } => run_tick(alloc, script, rooms, moment, out),
        other => run_other(alloc, script, rooms, other, out),
    }
}

/// Forgets the greatest block where the stream was started.
pub fn note_start(widening: &mut Widening, before: u8, after: u8)
    ensures { widening.new ≡ (if is_started_at before after then record widening.old { widener = 0 } else widening.old) }
{
    if before != 1 && after == 1 {
        widening.widener = Widener::new();
    }
}

/// Runs a line behind the first and before the last, and adds its report to the empty `out`.
pub(crate) fn run_line(
    alloc: Global,
    script: &mut Script,
    rooms: &mut DatagramRooms,
    line: Line<'_>,
    out: &mut Vec<u8>,
) -> Result<(), NoMemory>
    requires keeps { IsReplaying script.old.running }
    requires run { IsRunIn ROOM (view line) }
    requires empty { out.old.items ≡ [] }
    ensures { OnOk result (DoneLine (view line.entry) script.old out.new.items script.new) }
{
    let before = script.running.board.run();
    run_any(alloc, script, rooms, line, out)?;
    let after = script.running.board.run();
    note_start(&mut script.widening, before, after);
    Ok(())
}
