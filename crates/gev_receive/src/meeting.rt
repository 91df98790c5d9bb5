//! A camera that is taken, whose frames are received, and that is let go.

ghost use Rattle.std.specs.Prelude.{◌≡◌, None, option_map, IfSome};
ghost use Rattle.board_machine.specs.Histories.{After};
ghost use Rattle.board_machine.specs.Laws.{IsAlone};
ghost use Rattle.buffer_words.specs.Boards.{board_id};
ghost use Rattle.camera_control.specs.Taking.{TakeFails};
ghost use Rattle.gev_receive.specs.Answers.{is_lost as lost, control_status as status_of, stream_end};
ghost use Rattle.gev_receive.specs.Frames.{seen_by};
ghost use Rattle.gev_receive.specs.Starting.{no_counts as counts_none};
ghost use Rattle.gev_receive.specs.Receives.{picture_missing as missing, TakesBy, LeavesUnless, LeavesHeld, Streams, Meets};
ghost use Rattle.client_machine.specs.Machine.{IsIdle};
ghost use Rattle.camera_words.specs.Receiving.{IsInRange};

use crate::frames::{Asked, run_frames};
use crate::leading::find_leader;
use crate::ran::Ran;
use crate::sides::Sides;
use crate::starting::{lacks_picture, leader_counts, no_counts};
use crate::writes::writes_at;
use crate::{control_status, is_leader_lost, is_lost, leader_status, leave_status, weightier};
use buffer_words::{Board, Pass};
use camera_control::{ControlEnd, NotTaken, StreamWish, Taken, let_go, take_camera};
use camera_words::{Output, Settings, Stage};
use first_leader::FirstLeader;
use frame_pictures::NoPicture;
use gev_acq::Host;
use gev_far::PeekLink;
use gev_links::{Clock, Gate, Link, Sink, Source};
use gev_status::Status;
use gev_types::Peer;
use std::alloc::Global;
use std::sync::Wait;
use std::thread::Threads;

/// Where a run receives from, and to where.
#[derive(Clone, Copy)]
pub(crate) struct Ways<'a> {
    /// What the words ask for.
    pub(crate) settings: &'a Settings,
    /// The camera's control port.
    pub(crate) camera: Peer,
    /// The stream's own address.
    pub(crate) own: Peer,
}

/// A camera that was taken.
#[derive(Clone, Copy)]
struct TakenCamera<'a> {
    /// What the words ask for.
    settings: &'a Settings,
    /// The camera's control port.
    camera: Peer,
    /// What it told of its stream.
    told: Taken,
}

// Why the images have no picture, where pictures are asked for.
fn picture_missing(output: Output, leader: FirstLeader) -> Option<NoPicture>
    ensures { result ≡ missing output leader }
{
    match output {
        Output::Pictures => lacks_picture(leader.info),
        Output::Lines(_) => None,
        Output::Counts => None,
    }
}

// The frames behind the first leader.
fn run_behind_leader<
    R: Threads + Wait + Sync,
    S: PeekLink + Send + Drop,
    M: PeekLink + Send + Drop,
    C: Clock + Send + Drop,
    G: Gate + Sync,
    K: Sink,
    I: Source,
>(
    rt: &R,
    alloc: Global,
    taken: TakenCamera<'_>,
    sides: Sides<S, M, C>,
    gate: &G,
    sink: &mut K,
    input: &mut I,
    kept: &mut Option<(Board, Pass)>,
) -> (Ran, Sides<S, M, C>)
    requires within { IsInRange taken.settings.now }
    requires frames { sides.outlet.frames ≡ taken.settings.now.frames }
    requires output { sides.outlet.output ≡ taken.settings.now.output }
    requires watch { sides.outlet.watch.on ≡ taken.settings.now.until_input_ends }
    requires unkept { kept.old ≡ None }
    ensures alone { IfSome kept.new (λ k. IsAlone (After k.1.seen) 0) }
    ensures own { IfSome kept.new (λ k. k.1.table ≡ board_id k.0) }
    ensures streams { Streams taken.entry.settings.now taken.entry.camera taken.entry.told
        (record { received = S.received sides.host.stream; heard = M.received sides.host.control; sent = M.sent sides.host.control; told = C.told sides.host.clock; client = sides.host.client })
        (record { received = S.received result.1.host.stream; heard = M.received result.1.host.control; sent = M.sent result.1.host.control; told = C.told result.1.host.clock; client = result.1.host.client })
        (S.faults sides.host.stream) (S.faults result.1.host.stream) (M.faults sides.host.control) (M.faults result.1.host.control) (C.told sides.outlet.clock) (C.told result.1.outlet.clock)
        (K.written sink.old) (K.written sink.new) (K.faults sink.old) (K.faults sink.new) (I.left input.new)
        (seen_by (option_map (λ (k : _). k.1) kept.new)) (stream_end result.0.status result.0.lost) result.0.counts }
{
    let TakenCamera {
        settings,
        camera,
        told,
    } = taken;
    let Sides { host, outlet } = sides;
    let (host, found) = find_leader(
        rt,
        alloc,
        settings,
        camera,
        told.packet_size,
        host,
        sink,
        input,
    );
    let leader = match found {
        Ok(leader) => leader,
        Err(why) => {
            let ran = Ran {
                status: leader_status(why),
                lost: is_leader_lost(why),
                counts: no_counts(settings.frames),
            };
            return (ran, Sides { host, outlet });
        }
    };
    if let Some(why) = picture_missing(settings.output, leader) {
        let ran = Ran {
            status: Status::NoPicture { why },
            lost: false,
            counts: leader_counts(settings, leader),
        };
        return (ran, Sides { host, outlet });
    }
    let asked = Asked {
        settings,
        camera,
        leader,
        resends: told.resends,
    };
    let sides = Sides { host, outlet };
    run_frames(rt, alloc, asked, sides, gate, sink, input, kept)
}

// Takes the camera by what the words ask for.
fn take<R: Wait, S: Drop, M: PeekLink + Drop, C: Clock + Drop>(
    rt: &R,
    ways: Ways<'_>,
    host: &mut Host<S, M, C>,
) -> Result<Taken, NotTaken>
    requires { IsIdle host.old.client }
    ensures takes { TakesBy ways.entry.settings.now ways.entry.camera ways.entry.own
        (record { heard = M.received host.old.control; sent = M.sent host.old.control; told = C.told host.old.clock; client = host.old.client })
        (record { heard = M.received host.new.control; sent = M.sent host.new.control; told = C.told host.new.clock; client = host.new.client }) result }
    ensures fails { TakeFails result (M.faults host.old.control) (M.faults host.new.control) }
    ensures stream { host.new.stream ≡ host.old.stream }
{
    let wish = StreamWish {
        receiver: ways.own,
        packet_size: ways.settings.packet,
    };
    let sets = writes_at(Stage::Set, ways.settings.writes.as_slice());
    let starts = writes_at(Stage::Start, ways.settings.writes.as_slice());
    take_camera(
        rt,
        &mut host.client,
        &mut host.control,
        &mut host.clock,
        ways.camera,
        wish,
        sets.as_slice(),
        starts.as_slice(),
    )
}

// Lets the camera go, unless it let its controller go: the answer with that.
fn leave<R: Wait, S: Drop, M: PeekLink + Drop, C: Clock + Drop>(
    rt: &R,
    ways: Ways<'_>,
    host: &mut Host<S, M, C>,
    heartbeat: bool,
    ran: Ran,
) -> Status
    ensures leaves { LeavesUnless ran.lost ways.entry.settings.now ways.entry.camera heartbeat ran.counts.taken ran.status
        (record { heard = M.received host.old.control; sent = M.sent host.old.control; told = C.told host.old.clock; client = host.old.client })
        (record { heard = M.received host.new.control; sent = M.sent host.new.control; told = C.told host.new.clock; client = host.new.client })
        (M.faults host.old.control) (M.faults host.new.control) result }
    ensures stream { host.new.stream ≡ host.old.stream }
{
    if ran.lost {
        return ran.status;
    }
    host.control.set_waiting(true);
    let stops = writes_at(Stage::Stop, ways.settings.writes.as_slice());
    let left = let_go(
        rt,
        &mut host.client,
        &mut host.control,
        &mut host.clock,
        ways.camera,
        heartbeat,
        stops.as_slice(),
    );
    weightier(ran.status, leave_status(left, ran.counts.taken))
}

// The run whose camera wasn't taken, since control ended so.
fn ran_untaken(cause: ControlEnd, frames: u32) -> Ran
    ensures status { result.status ≡ status_of cause 0 }
    ensures lost { result.lost ≡ lost cause }
    ensures counts { result.counts ≡ counts_none frames }
{
    Ran {
        status: control_status(cause, 0),
        lost: is_lost(cause),
        counts: no_counts(frames),
    }
}

// Lets a camera that wasn't taken go, where it's held: how the run went.
fn leave_held<R: Wait, S: Drop, M: PeekLink + Drop, C: Clock + Drop>(
    rt: &R,
    ways: Ways<'_>,
    host: &mut Host<S, M, C>,
    fault: NotTaken,
) -> Ran
    ensures leaves { LeavesHeld fault.held ways.entry.settings.now ways.entry.camera fault.end
        (record { heard = M.received host.old.control; sent = M.sent host.old.control; told = C.told host.old.clock; client = host.old.client })
        (record { heard = M.received host.new.control; sent = M.sent host.new.control; told = C.told host.new.clock; client = host.new.client })
        (M.faults host.old.control) (M.faults host.new.control) result.status }
    ensures counts { result.counts ≡ counts_none ways.entry.settings.now.frames }
    ensures stream { host.new.stream ≡ host.old.stream }
{
    let mut ran = ran_untaken(fault.end, ways.settings.frames);
    if !fault.held {
        return ran;
    }
    ran.status = leave(rt, ways, host, false, ran);
    ran
}

/// Takes the camera, receives its frames, and lets it go.
pub(crate) fn meet_camera<
    R: Threads + Wait + Sync,
    S: PeekLink + Send + Drop,
    M: PeekLink + Send + Drop,
    C: Clock + Send + Drop,
    G: Gate + Sync,
    K: Sink,
    I: Source,
>(
    rt: &R,
    alloc: Global,
    ways: Ways<'_>,
    mut sides: Sides<S, M, C>,
    gate: &G,
    sink: &mut K,
    input: &mut I,
    kept: &mut Option<(Board, Pass)>,
) -> (Ran, Sides<S, M, C>)
    requires within { IsInRange ways.settings.now }
    requires frames { sides.outlet.frames ≡ ways.settings.now.frames }
    requires output { sides.outlet.output ≡ ways.settings.now.output }
    requires watch { sides.outlet.watch.on ≡ ways.settings.now.until_input_ends }
    requires idle { IsIdle sides.host.client }
    requires unkept { kept.old ≡ None }
    ensures alone { IfSome kept.new (λ k. IsAlone (After k.1.seen) 0) }
    ensures own { IfSome kept.new (λ k. k.1.table ≡ board_id k.0) }
    ensures meets { Meets ways.entry.settings.now ways.entry.camera ways.entry.own
        (record { received = S.received sides.host.stream; heard = M.received sides.host.control; sent = M.sent sides.host.control; told = C.told sides.host.clock; client = sides.host.client })
        (record { received = S.received result.1.host.stream; heard = M.received result.1.host.control; sent = M.sent result.1.host.control; told = C.told result.1.host.clock; client = result.1.host.client })
        (S.faults sides.host.stream) (S.faults result.1.host.stream) (M.faults sides.host.control) (M.faults result.1.host.control) (C.told sides.outlet.clock) (C.told result.1.outlet.clock)
        (K.written sink.old) (K.written sink.new) (K.faults sink.old) (K.faults sink.new) (I.left input.new)
        (seen_by (option_map (λ (k : _). k.1) kept.new)) result.0.status result.0.counts }
{
    match take(rt, ways, &mut sides.host) {
        Ok(told) => {
            let taken = TakenCamera {
                settings: ways.settings,
                camera: ways.camera,
                told,
            };
            let (mut ran, mut sides) = run_behind_leader(
                rt, alloc, taken, sides, gate, sink, input, kept,
            );
            ran.status = leave(rt, ways, &mut sides.host, true, ran);
            (ran, sides)
        }
        Err(fault) => {
            let ran = leave_held(rt, ways, &mut sides.host, fault);
            (ran, sides)
        }
    }
}
