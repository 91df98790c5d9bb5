//! A run over ports.

ghost use Rattle.std.specs.Prelude.{◌≡◌, ◌≢◌, ◌≤◌, ◌+◌, None, option_map, IfSome};
ghost use Rattle.board_machine.specs.Histories.{After};
ghost use Rattle.board_machine.specs.Laws.{IsAlone};
ghost use Rattle.buffer_words.specs.Boards.{board_id};
ghost use Rattle.camera_words.specs.Receiving.{IsInRange};
ghost use Rattle.gev_links.specs.Faults.{Rose};
ghost use Rattle.gev_links.specs.Links.{IsBlank};
ghost use Rattle.gev_receive.specs.Answers.{rank};
ghost use Rattle.gev_receive.specs.Frames.{seen_by};
ghost use Rattle.gev_receive.specs.Receives.{told_by, Receives, ReceivesOver};

use crate::drops::tell_drops;
use crate::ending::finish;
use crate::meeting::{Ways, meet_camera};
use crate::sides::Sides;
use crate::tools::{Ends, bind_ends, control_peer, give_back};
use buffer_words::{Board, Pass};
use camera_words::Settings;
use control_client::Client;
use frame_writing::{InputWatch, Outlet, Progress};
use gev_acq::Host;
use gev_far::{FarPorts, PeekLink};
use gev_links::{Clock, Gate, Sink, Source};
use gev_status::Status;
use link_filters::{Heard, OnlyFrom, RegisterReads};
use std::alloc::Global;
use std::marker::Brand;
use std::sync::Wait;
use std::thread::Threads;

/// How many milliseconds after a send the next one comes.
const SEND_LIMIT: u64 = 500;

/// What the application works with, by what the words ask for.
fn outlet_of<C: Drop>(settings: &Settings, clock: C, input_clock: C) -> Outlet<C, C>
    ensures frames { result.frames ≡ settings.now.frames }
    ensures output { result.output ≡ settings.now.output }
    ensures watch { result.watch.on ≡ settings.now.until_input_ends }
    ensures clock { result.clock ≡ clock }
{
    Outlet {
        frames: settings.frames,
        output: settings.output,
        clock,
        watch: InputWatch {
            clock: input_clock,
            on: settings.until_input_ends,
            next: 0,
        },
        progress: Progress::each(settings.progress),
    }
}

/// The application's clock, and the one by which standard input was looked at.
fn clocks_of<C: Drop>(outlet: Outlet<C, C>) -> (C, C)
    ensures { result.0 ≡ outlet.clock }
{
    let Outlet {
        frames: _,
        output: _,
        clock,
        watch,
        progress: _,
    } = outlet;
    let InputWatch {
        clock: input_clock,
        on: _,
        next: _,
    } = watch;
    (clock, input_clock)
}

/// The run over these links and clocks, which are given back.
fn receive_from<
    R: Threads + Wait + Sync,
    L: PeekLink + Send + Drop,
    C: Clock + Send + Drop,
    G: Gate + Sync,
    K: Sink,
    I: Source,
    H: Heard + Send + Drop,
>(
    rt: &R,
    alloc: Global,
    ways: Ways<'_>,
    ends: Ends<L, C>,
    gate: &G,
    sink: &mut K,
    input: &mut I,
    kept: &mut Option<(Board, Pass)>,
) -> (Status, Ends<L, C>)
    requires within { IsInRange ways.settings.now }
    requires source { ways.camera.address ≡ H.source }
    requires control { IsBlank (L.received ends.control) }
    requires stream { IsBlank (L.received ends.stream) }
    requires unkept { kept.old ≡ None }
    ensures alone { IfSome kept.new (λ k. IsAlone (After k.1.seen) 0) }
    ensures own { IfSome kept.new (λ k. k.1.table ≡ board_id k.0) }
    ensures receives { Receives ways.entry.settings.now ways.entry.camera ways.entry.own
        (told_by L.received L.sent C.told ends.control ends.stream ends.host_clock ends.app_clock)
        (told_by L.received L.sent C.told result.1.control result.1.stream result.1.host_clock result.1.app_clock)
        (L.faults ends.stream) (L.faults result.1.stream) (L.faults ends.control) (L.faults result.1.control)
        (K.written sink.old) (K.written sink.new) (K.faults sink.old) (K.faults sink.new) (I.left input.new)
        (seen_by (option_map (λ (k : _). k.1) kept.new)) result.0 }
{
    let Ends {
        control,
        stream,
        host_clock,
        app_clock,
        input_clock,
    } = ends;
    let settings = ways.settings;
    let address = ways.camera.address;
    let control: OnlyFrom<L, H> = OnlyFrom::new(control, address);
    let stream: OnlyFrom<L, H> = OnlyFrom::new(stream, address);
    let host = Host {
        client: Client::with_limit(SEND_LIMIT),
        stream,
        control: RegisterReads::new(control),
        clock: host_clock,
    };
    let outlet = outlet_of(settings, app_clock, input_clock);
    let sides = Sides { host, outlet };
    let (ran, sides) = meet_camera(rt, alloc, ways, sides, gate, sink, input, kept);
    let Sides { host, outlet } = sides;
    let Host {
        client: _,
        stream,
        control,
        clock: host_clock,
    } = host;
    let control = control.into_inner();
    let strangers = control.strangers().saturating_add(stream.strangers());
    let status = finish(alloc, sink, settings.output, ran, strangers);
    let (app_clock, input_clock) = clocks_of(outlet);
    let ends = Ends {
        control: control.into_inner(),
        stream: stream.into_inner(),
        host_clock,
        app_clock,
        input_clock,
    };
    (status, ends)
}

/// Takes the camera that the settings name, receives its stream over a link that the ports bind towards it, hands out as
/// many of its frames as are asked for, each as it comes, and lets the camera go. The board and the pass of the run are
/// kept, where one was made.
///
/// `LinkFault` where a bind or a call of a link failed, which goes before every other cause, `NoMemory`, and `WriteFault`
/// where the sink failed; `NoAnswer`, `RefusedAt`, `Controlled` and `ControlLost` as the camera's control ended, `Silent`
/// where nothing came from it for as long as the words say, `NoPicture` where its images have none that are asked for;
/// else `Done`.
pub fn receive_over<R: Threads + Wait + Sync, P: FarPorts, G: Gate + Sync, K: Sink, I: Source>(
    rt: &R,
    alloc: Global,
    settings: &Settings,
    ports: &mut P,
    input: &mut I,
    sink: &mut K,
    gate: &G,
    kept: &mut Option<(Board, Pass)>,
) -> Status
where
    P::L: PeekLink,
    requires within { IsInRange settings.now }
    requires unkept { kept.old ≡ None }
    ensures receives { ReceivesOver P.L.received P.L.sent P.L.faults P.C.told settings.now result (P.bound ports.old) (P.bound ports.new)
        (P.links ports.old) (P.links ports.new) (P.clocks ports.old) (P.clocks ports.new) (I.left input.new)
        (K.written sink.old) (K.written sink.new) (K.faults sink.old) (K.faults sink.new) (option_map (λ k. k.1.seen) kept.new) }
    ensures alone { IfSome kept.new (λ k. IsAlone (After k.1.seen) 0) }
    ensures own { IfSome kept.new (λ k. k.1.table ≡ board_id k.0) }
    ensures binds { P.binds ports.new ≤ P.binds ports.old + 2 }
    ensures answers { rank result ≤ 9 }
    ensures link_failed { result ≡ Status.LinkFault → Rose (P.faults ports.old) (P.faults ports.new) }
    ensures link_steady { result ≢ Status.LinkFault → P.faults ports.new ≡ P.faults ports.old }
    ensures write_failed { result ≡ Status.WriteFault → Rose (K.faults sink.old) (K.faults sink.new) }
    ensures write_steady { result ≢ Status.WriteFault → result ≢ Status.LinkFault → K.faults sink.new ≡ K.faults sink.old }
{
    let camera = control_peer(settings.camera);
    let Ok((ends, own)) = bind_ends(ports, camera) else {
        return Status::LinkFault;
    };
    let ways = Ways {
        settings,
        camera,
        own,
    };
    let (status, ends) = receive_from::<R, P::L, P::C, G, K, I, Brand>(
        rt, alloc, ways, ends, gate, sink, input, kept,
    );
    tell_drops(alloc, ports, &ends.stream, sink);
    give_back(ports, ends);
    status
}
