//! The setup, the turns, and the stop.

ghost use Rattle.std.specs.Prelude.{◌≡◌, ◌+◌, ◌≤◌, [], vec_len, vec_capacity};
ghost use Rattle.client_machine.specs.Machine.{HasSubmittedNone};
ghost use Rattle.acq_core.specs.Receiver.{config_of, buffers, Stands};
ghost use Rattle.acq_core.specs.Waiting.{waiting_fills, waiting_requests};
ghost use Rattle.buffer_words.specs.Boards.{board_id};
ghost use Rattle.buffer_words.specs.Passes.{IsEmptyHanded};
ghost use Rattle.buffer_words.specs.Workers.{Works};
ghost use Rattle.live_crew.specs.Crews.{ComesBack};
ghost use Rattle.gev_control.specs.Ends.{is_fault_end};
ghost use Rattle.gev_acq.specs.Buffers.{Backs, HoldsAlone};
ghost use Rattle.gev_acq.specs.Reading.{FaultsOf};
ghost use Rattle.gev_acq.specs.Hosts.{outside_of};
ghost use Rattle.gev_acq.specs.Kinds.{is_readers};
ghost use Rattle.gev_acq.specs.Reads.{ReadsTurns, Reads};

use crate::acquired::Acquired;
use crate::acquiring::acquire;
use crate::draining::drain;
use crate::host::Host;
use crate::turn::Turn;
use acq_core::Acq;
use board_calls::Mode;
use buffer_words::{Board, Pass};
use gev_control::AcqEnd;
use gev_links::{Clock, Gate, Link};
use gev_types::Peer;
use live_crew::Worked;
use std::sync::Wait;

/// The reader of a run, by what it works with.
#[derive(Drop)]
pub struct Reader<S, M, C> {
    /// The receiver of the stream.
    pub acq: Acq,
    /// The links, the clock and the client.
    pub host: Host<S, M, C>,
    /// The camera.
    pub camera: Peer,
    /// Where the camera is to send its stream.
    pub own: Peer,
    /// Where the turns are noted.
    pub journal: Vec<Turn>,
    /// The most turns.
    pub turns: u64,
    /// What a new block does with buffers that wait for the application.
    pub mode: Mode,
}

/// Sets the camera up, and makes the reader's turns where that was done.
fn read_turns<R: Wait, S: Link, M: Link, C: Clock, G: Gate>(
    rt: &R,
    board: &Board,
    pass: &mut Pass,
    gate: &G,
    reader: &mut Reader<S, M, C>,
) -> AcqEnd
    requires table { pass.old.table ≡ board_id board.now }
    requires new { Stands reader.old.acq [] }
    requires client { HasSubmittedNone reader.old.host.client }
    requires fills { waiting_fills reader.old.acq ≡ [] }
    requires requests { waiting_requests reader.old.acq ≡ [] }
    requires backs { Backs pass.old (buffers reader.old.acq) }
    requires room { vec_len reader.old.journal + reader.old.turns ≤ vec_capacity reader.old.journal }
    ensures reads { ReadsTurns reader.old.mode (config_of reader.old.acq) reader.old.camera reader.old.own (Stands reader.new.acq)
        (outside_of S.received M.received M.sent C.told reader.old.host) (outside_of S.received M.received M.sent C.told reader.new.host)
        reader.old.journal.items reader.new.journal.items reader.old.turns result pass.old pass.new }
    ensures faults { FaultsOf (is_fault_end result) (S.faults reader.old.host.stream) (S.faults reader.new.host.stream) (M.faults reader.old.host.control) (M.faults reader.new.host.control) }
    ensures table { pass.new.table ≡ pass.old.table }
    ensures config { config_of reader.new.acq ≡ config_of reader.old.acq }
    ensures fills { waiting_fills reader.new.acq ≡ [] }
    ensures requests { waiting_requests reader.new.acq ≡ [] }
    ensures backs { Backs pass.new (buffers reader.new.acq) }
    ensures alone { HoldsAlone pass.old (buffers reader.old.acq) → HoldsAlone pass.new (buffers reader.new.acq) }
{
    let end = reader.host.set_up(rt, reader.camera, reader.own);
    match end {
        AcqEnd::Stopped => acquire(
            rt,
            board,
            pass,
            &mut reader.acq,
            &mut reader.host.client,
            &mut reader.host.stream,
            &mut reader.host.control,
            &mut reader.host.clock,
            gate,
            reader.camera,
            &mut reader.journal,
            reader.turns,
            reader.mode,
        ),
        _ => end,
    }
}

/// The reader of a live run: sets its camera up to send the stream to it, makes at most the asked number of turns where
/// that was done, and in every case stops the receiver, fills what retires, and stops the acquisition.
pub fn read<R: Wait, S: Link, M: Link, C: Clock, G: Gate>(
    rt: &R,
    board: &Board,
    mut pass: Pass,
    gate: &G,
    mut reader: Reader<S, M, C>,
) -> Worked<Acquired<S, M, C>>
    requires table { pass.table ≡ board_id board.now }
    requires hands { IsEmptyHanded pass }
    requires new { Stands reader.acq [] }
    requires client { HasSubmittedNone reader.host.client }
    requires fills { waiting_fills reader.acq ≡ [] }
    requires requests { waiting_requests reader.acq ≡ [] }
    requires buffers { buffers reader.acq ≡ [] }
    requires room { vec_len reader.journal + reader.turns ≤ vec_capacity reader.journal }
    ensures reads { Reads reader.mode (config_of reader.acq) reader.camera reader.own (outside_of S.received M.received M.sent C.told reader.host)
        (outside_of S.received M.received M.sent C.told result.done.host) reader.journal.items result.done.journal.items reader.turns result.done.end pass result.pass }
    ensures works { Works (is_readers reader.mode) pass result.pass }
    ensures back { ComesBack pass result.pass }
    ensures faults { FaultsOf (is_fault_end result.done.end) (S.faults reader.host.stream) (S.faults result.done.host.stream) (M.faults reader.host.control) (M.faults result.done.host.control) }
{
    let mode = reader.mode;
    let end = read_turns(rt, board, &mut pass, gate, &mut reader);
    let Reader {
        mut acq,
        host,
        camera: _,
        own: _,
        journal,
        turns: _,
        mode: _,
    } = reader;
    drain(rt, board, &mut pass, &mut acq, mode);
    let _stopped = board.stop(&mut pass, false);
    Worked {
        pass,
        done: Acquired {
            host,
            journal,
            counts: acq.counts(),
            shed: None,
            end,
        },
    }
}
