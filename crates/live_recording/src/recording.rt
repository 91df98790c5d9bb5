//! A live run that is recorded.

ghost use Rattle.std.specs.Prelude.{◌≡◌, ◌≢◌, ◌⊎◌, ◌≤◌, [], length, true};
ghost use Rattle.gev_links.specs.Faults.{Rose};
ghost use Rattle.gev_status.specs.declared.status.Status.TheVariants as Status;
ghost use Rattle.gev_types.specs.Limits.{place_count};
ghost use Rattle.board_machine.specs.Histories.{After};
ghost use Rattle.board_machine.specs.Laws.{IsAlone};
ghost use Rattle.buffer_words.specs.Boards.{board_id};
ghost use Rattle.buffer_words.specs.Passes.{SameHands};
ghost use Rattle.gev_live.specs.Endings.{is_told};
ghost use Rattle.board_calls.specs.declared.mode.Mode.TheVariants as Mode;
ghost use Rattle.live_recording.specs.Recorded.{answer_by, Finishes, RecordsLive};

use crate::marks::marks_of;
use crate::nowhere::Nowhere;
use board_calls::Mode;
use buffer_words::{Board, Pass};
use gev_acq::Turn;
use gev_links::{Clock, Gate, Link, ShortLink, Sink};
use gev_live::{Ends, Numbers, live_with_journal};
use gev_record::{RecordEnd, Tape, write_script};
use gev_status::Status;
use std::alloc::Global;
use std::sync::Wait;
use std::thread::Threads;

/// Whether the script of a run with this answer is written.
fn is_told(status: Status) -> bool
    ensures { result ≡ is_told status }
{
    match status {
        Status::Done => true,
        Status::NoAnswer { .. } => true,
        Status::Refused { .. } => true,
        Status::TurnsSpent { .. } => true,
        Status::Usage { .. } => false,
        Status::BadScript { .. } => false,
        Status::BadCapture { .. } => false,
        Status::NoPicture { .. } => false,
        Status::Silent { .. } => false,
        Status::Controlled => false,
        Status::NoDescription => false,
        Status::ControlLost { .. } => false,
        Status::NoDatagram { .. } => false,
        Status::RefusedAt { .. } => false,
        Status::ReadFault => false,
        Status::WriteFault => false,
        Status::LinkFault => false,
        Status::NoMemory => false,
    }
}

/// The answer of a run whose script was written so.
fn answer_by(lived: Status, written: Result<(), RecordEnd>) -> Status
    ensures { result ≡ answer_by lived written }
{
    match written {
        Ok(()) => lived,
        Err(RecordEnd::WriteFault) => Status::WriteFault,
        Err(RecordEnd::NoMemory) => Status::NoMemory,
    }
}

/// Writes the script of a run with this answer.
fn write_run<L: Link, K: Sink>(
    alloc: Global,
    sink: &mut K,
    lived: Status,
    tape: &Tape<L>,
    journal: &[Turn],
) -> Status
    requires told { is_told lived ≡ true }
    requires counted { length tape.now.kept ≡ length journal.now }
    ensures { Finishes lived result tape.now.kept journal.now (K.written sink.old) (K.written sink.new) (K.faults sink.old) (K.faults sink.new) }
{
    match marks_of(alloc, journal) {
        Ok(marks) => {
            let written = write_script(alloc, tape, marks.as_slice(), sink);
            answer_by(lived, written)
        }
        Err(_) => Status::NoMemory,
    }
}

/// Writes a run's script where the run's own answer wants that.
fn write_told<L: Link, K: Sink>(
    alloc: Global,
    sink: &mut K,
    lived: Status,
    tape: &Tape<L>,
    journal: &[Turn],
) -> Status
    ensures { Finishes lived result tape.now.kept journal.now (K.written sink.old) (K.written sink.new) (K.faults sink.old) (K.faults sink.new) }
{
    if !is_told(lived) {
        return lived;
    }
    // The tape was made for as many receives as the reader has turns, so it kept one for each of them.
    if tape.len() != journal.len() {
        return Status::NoMemory;
    }
    write_run(alloc, sink, lived, tape, journal)
}

/// The answer of a recorded run, after the text of its counts was told, and its script written where the run's own answer
/// wants that.
fn finish<L: Link, K: Sink>(
    alloc: Global,
    sink: &mut K,
    lived: Status,
    tape: &Tape<L>,
    journal: &[Turn],
    told: &[u8],
) -> Status
    ensures { Finishes lived result tape.now.kept journal.now (K.written sink.old) (K.written sink.new) (K.faults sink.old) (K.faults sink.new) }
{
    sink.tell(told);
    write_told(alloc, sink, lived, tape, journal)
}

/// A live run with one lane that is recorded: what `live_over` runs with OldestFirst, over a tape as the link of
/// the stream, which was made for `turns` receives, 1 to 100,000, and has kept none. In place of the run's lines a
/// script is written, of the datagrams on the tape and the marks of the reader's turns. Replayed, it writes a take
/// line for each buffer that the run filled; what the application took comes first, the buffers' ids aside.
///
/// The answers are those of `live_over`. With `Done`, `NoAnswer`, `Refused` and `TurnsSpent` the script was written
/// whole; with `WriteFault` the sink failed behind a front of it; with `NoMemory` at most a front of it was written, and
/// with `LinkFault` nothing.
pub fn record_over<
    R: Threads + Wait + Sync,
    L: ShortLink + Send + Drop,
    C: Clock + Send + Drop,
    K: Sink,
    G: Gate + Sync,
>(
    rt: &R,
    alloc: Global,
    board: &Board,
    pass: &mut Pass,
    seed: u64,
    frames: u32,
    buffers: u8,
    turns: u64,
    ends: Ends<L, Tape<L>, C>,
    gate: &G,
    sink: &mut K,
) -> (Status, Ends<L, Tape<L>, C>)
    requires table { pass.old.table ≡ board_id board.now }
    requires first { pass.old.number ≡ 0 }
    requires unseen { pass.old.seen ≡ [] }
    requires some_buffers { 1 ≤ buffers }
    requires few_buffers { buffers ≤ place_count }
    requires few_turns { turns ≤ 100000 }
    requires tape { ends.stream.turns ≡ turns }
    requires unkept { ends.stream.kept ≡ [] }
    ensures table { pass.new.table ≡ pass.old.table }
    ensures hands { SameHands pass.old pass.new }
    ensures alone { IsAlone (After pass.new.seen) 0 }
    ensures records { RecordsLive (record { seed = seed; frames = frames; buffers = buffers; lanes = 1; turns = turns; mode = Mode.OldestFirst }) (L.address ends.camera) (L.address ends.stream.inner) result.0
        ends.told result.1.told result.1.stream.kept (K.written sink.old) (K.written sink.new) (K.faults sink.old) (K.faults sink.new) pass.new.seen }
    ensures links_steady { result.0 ≢ Status.LinkFault
        → (result.1.told.camera.faults ≡ ends.told.camera.faults) × (result.1.told.stream.faults ≡ ends.told.stream.faults) × (result.1.told.control.faults ≡ ends.told.control.faults) }
    ensures link_fault { result.0 ≡ Status.LinkFault
        → Rose ends.told.camera.faults result.1.told.camera.faults ⊎ Rose ends.told.stream.faults result.1.told.stream.faults ⊎ Rose ends.told.control.faults result.1.told.control.faults }
    ensures writes_steady { result.0 ≢ Status.WriteFault → K.faults sink.new ≡ K.faults sink.old }
{
    let mut nowhere = Nowhere::new(alloc);
    let numbers = Numbers {
        seed,
        frames,
        buffers,
        lanes: 1,
        turns,
        mode: Mode::OldestFirst,
    };
    let (lived, ends, journal) = live_with_journal(
        rt,
        alloc,
        board,
        pass,
        numbers,
        ends,
        gate,
        &mut nowhere,
    );
    pass.witness();
    ends.stream.witness();
    let status = finish(
        alloc,
        sink,
        lived,
        &ends.stream,
        journal.as_slice(),
        nowhere.told(),
    );
    (status, ends)
}
