//! Reader and application as threads.

ghost use Rattle.std.specs.Prelude.{◌≡◌, []};
ghost use Rattle.acq_core.specs.Receiver.{config_of, Stands};
ghost use Rattle.acq_core.specs.Waiting.{waiting_fills, waiting_requests};
ghost use Rattle.buffer_words.specs.Boards.{board_id};
ghost use Rattle.buffer_words.specs.Passes.{SameHands};
ghost use Rattle.buffer_words.specs.Workers.{Works};
ghost use Rattle.live_crew.specs.Crews.{IsNewPass, ComesBack, RanTwo};
ghost use Rattle.gev_links.specs.Told.{Drops};
ghost use Rattle.gev_acq.specs.Kinds.{is_readers};
ghost use Rattle.gev_acq.specs.Reading.{FaultsOf};
ghost use Rattle.gev_apply.specs.Kinds.{is_applications};
ghost use Rattle.camera_reader.specs.Reading.{is_fault};
ghost use Rattle.frame_writing.specs.Work.{HandsOutAndStops};
ghost use Rattle.gev_receive.specs.Reader.{ReadsFrames};

use crate::reading::{FramesRead, read_frames};
use acq_core::Acq;
use buffer_words::{Board, Pass};
use camera_reader::ReaderWords;
use frame_writing::{FramesDone, Outlet, work_frames};
use gev_acq::Host;
use gev_links::{Clock, Gate, Link, Sink, Source};
use live_crew::{Worked, run_two};
use std::alloc::Global;
use std::sync::Wait;
use std::thread::Threads;

/// What reader and application work with.
#[derive(Drop)]
pub(crate) struct Crew<S: Drop, M: Drop, C: Drop> {
    /// The receiver.
    pub(crate) acq: Acq,
    /// What the reader works with.
    pub(crate) host: Host<S, M, C>,
    /// How it reads.
    pub(crate) words: ReaderWords,
    /// What the application works with.
    pub(crate) outlet: Outlet<C, C>,
}

/// What the application gives back, with what was lent to it.
struct Returned<'a, 'b, C: Drop, K, I> {
    done: FramesDone<C, C>,
    sink: &'a mut K,
    input: &'b mut I,
}

/// Ends what was lent.
fn take_back<T>(lent: &mut T)
    ensures { lent.new ≡ lent.old }
{}

/// Reader and application at the same time, the application on this thread. The caller has seen that a thread can be made;
/// where the system gives the last one to another process in between the reader comes behind the application, which waits
/// for it then until its input ends.
pub(crate) fn work_two<
    R: Threads + Wait + Sync,
    S: Link + Send + Drop,
    M: Link + Send + Drop,
    C: Clock + Send + Drop,
    G: Gate + Sync,
    K: Sink,
    I: Source,
>(
    rt: &R,
    alloc: Global,
    board: &Board,
    pass: &mut Pass,
    crew: Crew<S, M, C>,
    gate: &G,
    sink: &mut K,
    input: &mut I,
) -> (FramesRead<S, M, C>, FramesDone<C, C>)
    requires table { pass.old.table ≡ board_id board.now }
    requires receiver { Stands crew.acq [] × (waiting_fills crew.acq ≡ []) × (waiting_requests crew.acq ≡ []) }
    ensures ran { RanTwo
        (λ given back. ReadsFrames crew.words.mode (config_of crew.acq) crew.words.ids crew.words.camera crew.words.silence
        (record { received = S.received crew.host.stream; heard = M.received crew.host.control; sent = M.sent crew.host.control; told = C.told crew.host.clock; client = crew.host.client })
        (record { received = S.received result.0.host.stream; heard = M.received result.0.host.control; sent = M.sent result.0.host.control; told = C.told result.0.host.clock; client = result.0.host.client })
        result.0.counts result.0.end given back × Works (is_readers crew.words.mode) given back
        × FaultsOf (is_fault result.0.end) (S.faults crew.host.stream) (S.faults result.0.host.stream) (M.faults crew.host.control) (M.faults result.0.host.control))
        (λ given back. HandsOutAndStops crew.outlet.frames crew.outlet.output (C.told crew.outlet.clock) (C.told result.1.outlet.clock) result.1.handed given back
        (K.written sink.old) (K.written sink.new) (K.faults sink.old) (K.faults sink.new) crew.outlet.watch.on (I.left input.new)
        × Works is_applications given back × Drops (I.left input.old) (I.left input.new) × (I.faults input.new ≡ I.faults input.old))
        pass.old pass.new }
    ensures table { pass.new.table ≡ pass.old.table }
    ensures hands { SameHands pass.old pass.new }
{
    let Crew {
        acq,
        host,
        words,
        outlet,
    } = crew;
    let lent_sink = &mut *sink;
    let lent_input = &mut *input;
    let (read, took) = run_two(
        rt,
        board,
        pass,
        move |given: Pass| -> Worked<FramesRead<S, M, C>>
            requires { IsNewPass (board_id board.now) given × Stands acq [] × (waiting_fills acq ≡ []) × (waiting_requests acq ≡ []) }
            ensures { ReadsFrames words.mode (config_of acq) words.ids words.camera words.silence
                (record { received = S.received host.stream; heard = M.received host.control; sent = M.sent host.control; told = C.told host.clock; client = host.client })
                (record { received = S.received result.done.host.stream; heard = M.received result.done.host.control; sent = M.sent result.done.host.control; told = C.told result.done.host.clock; client = result.done.host.client })
                result.done.counts result.done.end given result.pass
                × Works (is_readers words.mode) given result.pass
                × FaultsOf (is_fault result.done.end) (S.faults host.stream) (S.faults result.done.host.stream) (M.faults host.control) (M.faults result.done.host.control)
                × ComesBack given result.pass }
        { read_frames(rt, board, given, acq, host, gate, words) },
        move |given: Pass| -> Worked<Returned<'_, '_, C, K, I>>
            requires { IsNewPass (board_id board.now) given }
            ensures { HandsOutAndStops outlet.frames outlet.output (C.told outlet.clock) (C.told result.done.done.outlet.clock) result.done.done.handed given result.pass
                (K.written lent_sink.entry.now) (K.written result.done.sink.now) (K.faults lent_sink.entry.now) (K.faults result.done.sink.now) outlet.watch.on (I.left result.done.input.now)
                × Works is_applications given result.pass × Drops (I.left lent_input.entry.now) (I.left result.done.input.now) × (I.faults result.done.input.now ≡ I.faults lent_input.entry.now)
                × (result.done.sink.ghost_name ≡ lent_sink.entry.ghost_name) × (result.done.input.ghost_name ≡ lent_input.entry.ghost_name)
                × ComesBack given result.pass }
        {
            let Worked { pass: back, done } = work_frames(
                rt, alloc, board, given, gate, outlet, lent_sink, lent_input,
            );
            Worked {
                pass: back,
                done: Returned {
                    done,
                    sink: lent_sink,
                    input: lent_input,
                },
            }
        },
    );
    let Returned {
        done,
        sink: sink_back,
        input: input_back,
    } = took;
    take_back(sink_back);
    take_back(input_back);
    (read, done)
}
