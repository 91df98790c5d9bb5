//! A live run over links and clocks that are handed in.

ghost use Rattle.std.specs.Prelude.{◌≡◌, ◌≢◌, ◌⊎◌, ◌≤◌, []};
ghost use Rattle.gev_links.specs.Faults.{Rose};
ghost use Rattle.gev_status.specs.declared.status.Status.TheVariants as Status;
ghost use Rattle.gev_types.specs.Limits.{place_count};
ghost use Rattle.board_machine.specs.Histories.{After};
ghost use Rattle.board_machine.specs.Laws.{IsAlone};
ghost use Rattle.buffer_words.specs.Boards.{board_id};
ghost use Rattle.buffer_words.specs.Passes.{SameHands};
ghost use Rattle.gev_live.specs.LanesRun.{RunsLanes, RunsSo};
ghost use Rattle.gev_live.specs.Journal.{RunsWithJournal};

use crate::ends::Ends;
use crate::finishing::end_run;
use crate::lanes_making::make_lanes_tools;
use crate::lanes_running::run_lanes_crew;
use crate::numbers::Numbers;
use crate::running::run_crew;
use crate::tools::make_tools;
use board_calls::Mode;
use buffer_words::{Board, Pass};
use gev_acq::Turn;
use gev_links::{Clock, Gate, Link, Sink};
use gev_status::Status;
use live_crew::prepare;
use std::alloc::Global;
use std::sync::Wait;
use std::thread::Threads;

// The size of a live run's buffers, in bytes: an image of 640 x 480 pixels of one byte each.
const BUFFER_SIZE: u64 = 307_200;

/// The run of `live_over` with one lane, with the journal of its reader: an entry for each turn, in order.
pub fn live_with_journal<
    R: Threads + Wait + Sync,
    L: Link + Send + Drop,
    S: Link + Send + Drop,
    C: Clock + Send + Drop,
    K: Sink,
    G: Gate + Sync,
>(
    rt: &R,
    alloc: Global,
    board: &Board,
    pass: &mut Pass,
    numbers: Numbers,
    ends: Ends<L, S, C>,
    gate: &G,
    sink: &mut K,
) -> (Status, Ends<L, S, C>, Vec<Turn>)
    requires table { pass.old.table ≡ board_id board.now }
    requires first { pass.old.number ≡ 0 }
    requires unseen { pass.old.seen ≡ [] }
    requires some_buffers { 1 ≤ numbers.buffers }
    requires few_buffers { numbers.buffers ≤ place_count }
    requires lanes { numbers.lanes ≡ 1 }
    ensures table { pass.new.table ≡ pass.old.table }
    ensures hands { SameHands pass.old pass.new }
    ensures live { RunsWithJournal numbers (L.address ends.camera) (S.address ends.stream) result.0
        ends.told result.1.told (K.written sink.old) (K.written sink.new) (K.faults sink.old) (K.faults sink.new) pass.new.seen result.2.items }
{
    match make_tools(alloc, numbers.seed, numbers.turns) {
        Ok(made) => match prepare(alloc, board, pass, BUFFER_SIZE, numbers.buffers) {
            Ok(()) => {
                let done = run_crew(rt, alloc, board, pass, gate, numbers, made, ends);
                end_run(alloc, sink, numbers, done)
            }
            Err(_) => (Status::NoMemory, ends, Vec::new(alloc)),
        },
        Err(_) => (Status::NoMemory, ends, Vec::new(alloc)),
    }
}

// The run of `live_over` with more lanes.
fn live_with_lanes<
    R: Threads + Wait + Sync,
    L: Link + Send + Drop,
    S: Link + Send + Drop,
    C: Clock + Send + Drop,
    K: Sink,
    G: Gate + Sync,
>(
    rt: &R,
    alloc: Global,
    board: &Board,
    pass: &mut Pass,
    numbers: Numbers,
    ends: Ends<L, S, C>,
    gate: &G,
    sink: &mut K,
) -> (Status, Ends<L, S, C>)
    requires table { pass.old.table ≡ board_id board.now }
    requires first { pass.old.number ≡ 0 }
    requires unseen { pass.old.seen ≡ [] }
    requires some_buffers { 1 ≤ numbers.buffers }
    requires few_buffers { numbers.buffers ≤ place_count }
    requires some_lanes { 2 ≤ numbers.lanes }
    requires few_lanes { numbers.lanes ≤ 4 }
    ensures table { pass.new.table ≡ pass.old.table }
    ensures hands { SameHands pass.old pass.new }
    ensures live { RunsLanes numbers numbers.lanes (L.address ends.camera) (S.address ends.stream) result.0
        ends.told result.1.told (K.written sink.old) (K.written sink.new) (K.faults sink.old) (K.faults sink.new) pass.new.seen }
{
    match make_lanes_tools(alloc, numbers.seed, numbers.lanes) {
        Ok(made) => match prepare(alloc, board, pass, BUFFER_SIZE, numbers.buffers) {
            Ok(()) => {
                let done = run_lanes_crew(rt, alloc, board, pass, gate, numbers, made, ends);
                let (status, ends, _journal) = end_run(alloc, sink, numbers, done);
                (status, ends)
            }
            Err(_) => (Status::NoMemory, ends),
        },
        Err(_) => (Status::NoMemory, ends),
    }
}

// The run, by the number of its lanes.
fn run_over<
    R: Threads + Wait + Sync,
    L: Link + Send + Drop,
    S: Link + Send + Drop,
    C: Clock + Send + Drop,
    K: Sink,
    G: Gate + Sync,
>(
    rt: &R,
    alloc: Global,
    board: &Board,
    pass: &mut Pass,
    numbers: Numbers,
    ends: Ends<L, S, C>,
    gate: &G,
    sink: &mut K,
) -> (Status, Ends<L, S, C>)
    requires table { pass.old.table ≡ board_id board.now }
    requires first { pass.old.number ≡ 0 }
    requires unseen { pass.old.seen ≡ [] }
    requires some_buffers { 1 ≤ numbers.buffers }
    requires few_buffers { numbers.buffers ≤ place_count }
    requires some_lanes { 1 ≤ numbers.lanes }
    requires few_lanes { numbers.lanes ≤ 4 }
    ensures table { pass.new.table ≡ pass.old.table }
    ensures hands { SameHands pass.old pass.new }
    ensures live { RunsSo numbers (L.address ends.camera) (S.address ends.stream) result.0
        ends.told result.1.told (K.written sink.old) (K.written sink.new) (K.faults sink.old) (K.faults sink.new) pass.new.seen }
{
    if numbers.lanes == 1 {
        let (status, ends, _journal) = live_with_journal(
            rt, alloc, board, pass, numbers, ends, gate, sink,
        );
        return (status, ends);
    }
    live_with_lanes(rt, alloc, board, pass, numbers, ends, gate, sink)
}

/// A live run with 1 to 4 lanes: camera, reader and application as threads that share `board`, over these links and
/// clocks. With one lane the reader assembles the blocks. With more each of them is a thread and has a receiver of its
/// own: the reader brings block b to lane (b - 1) mod `lanes`, and a datagram for a lane that has no free cell is shed,
/// and counts as lost. The camera makes its frames from `seed`; `frames` of them are to be handed out, 1 to 1000,
/// through `buffers` buffers, 1 to 15; the reader makes at most `turns` turns. The lines of the buffers that were handed
/// out are written in order, and a last line. `mode` says what a new block does with buffers that wait for the
/// application; one that is dropped for it is never handed out. Where no thread can be made the workers run one after
/// another.
///
/// `Done` where all frames were handed out; `TurnsSpent` where the reader made all its turns before. `NoAnswer`
/// and `Refused` as the control channel's client says; `LinkFault` where a link failed, `WriteFault` where the
/// sink did; `NoMemory`. With `LinkFault` and `NoMemory` nothing is written.
pub fn live_over<
    R: Threads + Wait + Sync,
    L: Link + Send + Drop,
    S: Link + Send + Drop,
    C: Clock + Send + Drop,
    K: Sink,
    G: Gate + Sync,
>(
    rt: &R,
    alloc: Global,
    board: &Board,
    pass: &mut Pass,
    seed: u64,
    frames: u32,
    buffers: u8,
    lanes: u8,
    turns: u64,
    ends: Ends<L, S, C>,
    gate: &G,
    sink: &mut K,
    mode: Mode,
) -> (Status, Ends<L, S, C>)
    requires table { pass.old.table ≡ board_id board.now }
    requires first { pass.old.number ≡ 0 }
    requires unseen { pass.old.seen ≡ [] }
    requires some_buffers { 1 ≤ buffers }
    requires few_buffers { buffers ≤ place_count }
    requires some_lanes { 1 ≤ lanes }
    requires few_lanes { lanes ≤ 4 }
    ensures table { pass.new.table ≡ pass.old.table }
    ensures hands { SameHands pass.old pass.new }
    ensures alone { IsAlone (After pass.new.seen) 0 }
    ensures live { RunsSo (record { seed = seed; frames = frames; buffers = buffers; lanes = lanes; turns = turns; mode = mode }) (L.address ends.camera) (S.address ends.stream) result.0
        ends.told result.1.told (K.written sink.old) (K.written sink.new) (K.faults sink.old) (K.faults sink.new) pass.new.seen }
    ensures links_steady { result.0 ≢ Status.LinkFault
        → (result.1.told.camera.faults ≡ ends.told.camera.faults) × (result.1.told.stream.faults ≡ ends.told.stream.faults) × (result.1.told.control.faults ≡ ends.told.control.faults) }
    ensures link_fault { result.0 ≡ Status.LinkFault
        → Rose ends.told.camera.faults result.1.told.camera.faults ⊎ Rose ends.told.stream.faults result.1.told.stream.faults ⊎ Rose ends.told.control.faults result.1.told.control.faults }
    ensures writes_steady { result.0 ≢ Status.WriteFault → K.faults sink.new ≡ K.faults sink.old }
{
    let numbers = Numbers {
        seed,
        frames,
        buffers,
        lanes,
        turns,
        mode,
    };
    run_over(rt, alloc, board, pass, numbers, ends, gate, sink)
}
