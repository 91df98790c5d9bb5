//! The reader's worker.

ghost use Rattle.std.specs.Prelude.{◌≡◌, [], ◌∷◌};
ghost use Rattle.acquisition_machine.specs.Machine.{tick as told};
ghost use Rattle.acq_core.specs.Receiver.{config_of, buffers, Stands};
ghost use Rattle.acq_core.specs.Waiting.{waiting_fills, waiting_requests};
ghost use Rattle.buffer_words.specs.Boards.{board_id};
ghost use Rattle.buffer_words.specs.Passes.{IsEmptyHanded};
ghost use Rattle.buffer_words.specs.Workers.{Works};
ghost use Rattle.live_crew.specs.Crews.{ComesBack};
ghost use Rattle.gev_acq.specs.Buffers.{Backs, HoldsAlone};
ghost use Rattle.gev_acq.specs.Kinds.{is_readers};
ghost use Rattle.gev_acq.specs.Reading.{FaultsOf};
ghost use Rattle.camera_reader.specs.Reading.{is_fault};
ghost use Rattle.gev_receive.specs.Reader.{ReadsTo, with_refused as counts_with, ReadsFrames};

use acq_core::Acq;
use acquisition_machine::Counts;
use buffer_words::{Board, Pass};
use camera_reader::{ReaderEnd, ReaderWords, TurnsDone, read_camera};
use gev_acq::{Host, drain};
use gev_links::{Clock, Gate, Link};
use live_crew::Worked;
use std::sync::Wait;

/// What the reader's worker gives back beside its pass.
#[derive(Drop)]
pub(crate) struct FramesRead<S: Drop, M: Drop, C: Drop> {
    /// What it worked with.
    pub(crate) host: Host<S, M, C>,
    /// What the receiver counted, with what was refused in widening.
    pub(crate) counts: Counts,
    /// How it ended.
    pub(crate) end: ReaderEnd,
}

/// A new receiver is told the moment.
fn begin_receiver(acq: &mut Acq, moment: u64)
    requires new { Stands acq.old [] }
    requires fills { waiting_fills acq.old ≡ [] }
    requires requests { waiting_requests acq.old ≡ [] }
    ensures stands { Stands acq.new (told moment ∷ []) }
    ensures config { config_of acq.new ≡ config_of acq.old }
    ensures fills { waiting_fills acq.new ≡ [] }
    ensures requests { waiting_requests acq.new ≡ [] }
    ensures buffers { buffers acq.new ≡ [] }
{
    acq.tick(moment);
}

/// The moment before the first turn, and the turns.
fn read_on<R: Wait, S: Link + Drop, M: Link + Drop, C: Clock + Drop, G: Gate>(
    rt: &R,
    board: &Board,
    pass: &mut Pass,
    acq: &mut Acq,
    host: &mut Host<S, M, C>,
    gate: &G,
    words: ReaderWords,
) -> TurnsDone
    requires table { pass.old.table ≡ board_id board.now }
    requires hands { IsEmptyHanded pass.old }
    requires new { Stands acq.old [] }
    requires fills { waiting_fills acq.old ≡ [] }
    requires requests { waiting_requests acq.old ≡ [] }
    ensures reads { ReadsTo words.mode (config_of acq.old) words.ids words.camera words.silence (Stands acq.new)
        (record { received = S.received host.old.stream; heard = M.received host.old.control; sent = M.sent host.old.control; told = C.told host.old.clock; client = host.old.client })
        (record { received = S.received host.new.stream; heard = M.received host.new.control; sent = M.sent host.new.control; told = C.told host.new.clock; client = host.new.client })
        result.refused result.end pass.old pass.new }
    ensures faults { FaultsOf (is_fault result.end) (S.faults host.old.stream) (S.faults host.new.stream) (M.faults host.old.control) (M.faults host.new.control) }
    ensures table { pass.new.table ≡ pass.old.table }
    ensures config { config_of acq.new ≡ config_of acq.old }
    ensures fills { waiting_fills acq.new ≡ [] }
    ensures requests { waiting_requests acq.new ≡ [] }
    ensures backs { Backs pass.new (buffers acq.new) }
    ensures alone { HoldsAlone pass.new (buffers acq.new) }
{
    let begin = host.clock.now();
    begin_receiver(acq, begin);
    read_camera(rt, board, pass, acq, host, gate, words, begin)
}

/// What was counted, with the datagrams that were refused in widening.
fn with_refused(mut counts: Counts, refused: u64) -> Counts
    ensures { result ≡ counts_with counts refused }
{
    counts.foreign = counts.foreign.saturating_add(refused);
    counts
}

/// The reader's worker: tells the receiver the moment, makes turns until one of them or the run word ends it, stops the
/// receiver, fills what retires, and stops the run.
pub(crate) fn read_frames<R: Wait, S: Link + Drop, M: Link + Drop, C: Clock + Drop, G: Gate>(
    rt: &R,
    board: &Board,
    mut pass: Pass,
    mut acq: Acq,
    mut host: Host<S, M, C>,
    gate: &G,
    words: ReaderWords,
) -> Worked<FramesRead<S, M, C>>
    requires table { pass.table ≡ board_id board.now }
    requires hands { IsEmptyHanded pass }
    requires new { Stands acq [] }
    requires fills { waiting_fills acq ≡ [] }
    requires requests { waiting_requests acq ≡ [] }
    ensures reads { ReadsFrames words.mode (config_of acq) words.ids words.camera words.silence
        (record { received = S.received host.stream; heard = M.received host.control; sent = M.sent host.control; told = C.told host.clock; client = host.client })
        (record { received = S.received result.done.host.stream; heard = M.received result.done.host.control; sent = M.sent result.done.host.control; told = C.told result.done.host.clock; client = result.done.host.client })
        result.done.counts result.done.end pass result.pass }
    ensures works { Works (is_readers words.mode) pass result.pass }
    ensures back { ComesBack pass result.pass }
    ensures faults { FaultsOf (is_fault result.done.end) (S.faults host.stream) (S.faults result.done.host.stream) (M.faults host.control) (M.faults result.done.host.control) }
{
    let read = read_on(rt, board, &mut pass, &mut acq, &mut host, gate, words);
    drain(rt, board, &mut pass, &mut acq, words.mode);
    let _stopped = board.stop(&mut pass, false);
    Worked {
        pass,
        done: FramesRead {
            host,
            counts: with_refused(acq.counts(), read.refused),
            end: read.end,
        },
    }
}
