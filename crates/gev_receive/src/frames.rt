//! The frames of a stream whose first leader came.

ghost use Rattle.std.specs.Prelude.{◌≡◌, None, option_map, IfSome};
ghost use Rattle.board_machine.specs.Histories.{After};
ghost use Rattle.board_machine.specs.Laws.{IsAlone};
ghost use Rattle.buffer_words.specs.Boards.{board_id};
ghost use Rattle.camera_words.specs.Receiving.{IsInRange};
ghost use Rattle.gev_receive.specs.Answers.{stream_end, unread_end, frames_end};
ghost use Rattle.gev_receive.specs.Starting.{leader_counts as counts_behind, with_counts as counts_with};
ghost use Rattle.gev_receive.specs.Frames.{Runs, seen_by};

use crate::ran::Ran;
use crate::reading::FramesRead;
use crate::sides::Sides;
use crate::starting::{buffer_size, config_of, leader_counts, mode_of, with_counts};
use crate::threads::has_thread;
use crate::workers::{Crew, work_two};
use crate::{handed_status, is_reader_lost, reader_status, weightier};
use acq_core::Acq;
use acquisition_machine::Counts;
use buffer_words::{Board, Pass};
use camera_reader::{ReaderEnd, ReaderWords};
use camera_words::Settings;
use first_leader::FirstLeader;
use frame_writing::{FramesDone, HandedOut};
use gev_links::{Clock, Gate, Link, Sink, Source};
use gev_status::Status;
use gev_types::Peer;
use live_crew::prepare;
use std::alloc::Global;
use std::sync::Wait;
use std::thread::Threads;

/// What a stream is received for.
#[derive(Clone, Copy)]
pub(crate) struct Asked<'a> {
    /// What the words ask for.
    pub(crate) settings: &'a Settings,
    /// The camera's control port.
    pub(crate) camera: Peer,
    /// What its first leader tells.
    pub(crate) leader: FirstLeader,
    /// Whether packets may be asked for again.
    pub(crate) resends: bool,
}

// What was handed out and counted.
fn ran_so(asked: Asked<'_>, end: ReaderEnd, counted: Counts, handed: HandedOut) -> Ran
    requires within { IsInRange asked.settings.now }
    ensures ended { stream_end result.status result.lost ≡ frames_end handed.end end asked.entry.settings.now.frames handed.taken }
    ensures counts { result.counts ≡ counts_with (counts_behind asked.entry.settings.now asked.entry.leader) handed.taken handed.complete counted }
{
    let frames = asked.settings.frames;
    let status = weightier(
        handed_status(handed.end),
        reader_status(end, frames, handed.taken),
    );
    let before = leader_counts(asked.settings, asked.leader);
    let counts = with_counts(before, handed.taken, handed.complete, counted);
    Ran {
        status,
        lost: is_reader_lost(end),
        counts,
    }
}

// The run for which memory or a thread was wanting.
fn ran_none(asked: Asked<'_>) -> Ran
    requires within { IsInRange asked.settings.now }
    ensures ended { stream_end result.status result.lost ≡ unread_end Status.NoMemory }
    ensures counts { result.counts ≡ counts_behind asked.entry.settings.now asked.entry.leader }
{
    Ran {
        status: Status::NoMemory,
        lost: false,
        counts: leader_counts(asked.settings, asked.leader),
    }
}

/// Receives and hands out the frames over these links; `NoMemory` where memory or a thread is wanting before anything is
/// received.
pub(crate) fn run_frames<
    R: Threads + Wait + Sync,
    S: Link + Send + Drop,
    M: Link + Send + Drop,
    C: Clock + Send + Drop,
    G: Gate + Sync,
    K: Sink,
    I: Source,
>(
    rt: &R,
    alloc: Global,
    asked: Asked<'_>,
    sides: Sides<S, M, C>,
    gate: &G,
    sink: &mut K,
    input: &mut I,
    kept: &mut Option<(Board, Pass)>,
) -> (Ran, Sides<S, M, C>)
    requires within { IsInRange asked.settings.now }
    requires frames { sides.outlet.frames ≡ asked.settings.now.frames }
    requires output { sides.outlet.output ≡ asked.settings.now.output }
    requires watch { sides.outlet.watch.on ≡ asked.settings.now.until_input_ends }
    requires unkept { kept.old ≡ None }
    ensures alone { IfSome kept.new (λ k. IsAlone (After k.1.seen) 0) }
    ensures own { IfSome kept.new (λ k. k.1.table ≡ board_id k.0) }
    ensures runs { Runs asked.entry.settings.now asked.entry.camera asked.entry.leader asked.entry.resends
        (record { received = S.received sides.host.stream; heard = M.received sides.host.control; sent = M.sent sides.host.control; told = C.told sides.host.clock; client = sides.host.client })
        (record { received = S.received result.1.host.stream; heard = M.received result.1.host.control; sent = M.sent result.1.host.control; told = C.told result.1.host.clock; client = result.1.host.client })
        (S.faults sides.host.stream) (S.faults result.1.host.stream) (M.faults sides.host.control) (M.faults result.1.host.control) (C.told sides.outlet.clock) (C.told result.1.outlet.clock)
        (K.written sink.old) (K.written sink.new) (K.faults sink.old) (K.faults sink.new) (I.left input.old) (I.left input.new) (I.faults input.old) (I.faults input.new)
        (stream_end result.0.status result.0.lost) result.0.counts (seen_by (option_map (λ (k : _). k.1) kept.new)) }
{
    let Asked {
        settings,
        camera,
        leader,
        resends,
    } = asked;
    if !has_thread(rt) {
        return (ran_none(asked), sides);
    }
    let Ok(acq) = Acq::new(alloc, config_of(settings, leader, resends)) else {
        return (ran_none(asked), sides);
    };
    let Ok((board, mut pass)) = Board::new(alloc) else {
        return (ran_none(asked), sides);
    };
    let size = u64::from(buffer_size(settings, leader));
    if prepare(alloc, &board, &mut pass, size, settings.buffers).is_err() {
        pass.witness();
        *kept = Some((board, pass));
        return (ran_none(asked), sides);
    }
    let Sides { host, outlet } = sides;
    let words = ReaderWords {
        camera,
        ids: leader.ids,
        silence: u64::from(settings.silence),
        mode: mode_of(settings.mode),
    };
    let crew = Crew {
        acq,
        host,
        words,
        outlet,
    };
    let (read, took) = work_two(rt, alloc, &board, &mut pass, crew, gate, sink, input);
    *kept = Some((board, pass));
    let FramesRead { host, counts, end } = read;
    let FramesDone { outlet, handed } = took;
    let ran = ran_so(asked, end, counts, handed);
    (ran, Sides { host, outlet })
}
