//! The camera and the application as workers, with any worker between them that acquires.

ghost use Rattle.std.specs.Prelude.{◌≡◌};
ghost use Rattle.buffer_words.specs.Boards.{board_id};
ghost use Rattle.buffer_words.specs.Passes.{SameHands};
ghost use Rattle.buffer_words.specs.Workers.{Works};
ghost use Rattle.live_crew.specs.Crews.{IsNewPass, ComesBack, RanThree};
ghost use Rattle.gev_serve.specs.Wires.{wire};
ghost use Rattle.gev_serve.specs.Kinds.{is_cameras};
ghost use Rattle.gev_serve.specs.Work.{ServesAndStops};
ghost use Rattle.gev_apply.specs.Kinds.{is_applications};
ghost use Rattle.gev_apply.specs.Work.{AppliesAndStops};

use buffer_words::{Board, Pass};
use camera_sim::Camera;
use gev_apply::{ApplicationDone, work_application};
use gev_links::{Clock, Gate, Link};
use gev_serve::{CameraDone, work_camera};
use live_crew::{Worked, run_three};
use std::alloc::Global;
use std::sync::Wait;
use std::thread::Threads;

/// What the camera's worker works with.
pub struct CameraSide<L, C> {
    /// The camera, which made no frame yet.
    pub camera: Camera,
    /// Its link.
    pub link: L,
    /// Its clock.
    pub clock: C,
}

/// What the application's worker works with.
pub struct ApplicationSide<C> {
    /// Its clock.
    pub clock: C,
    /// How many buffers it takes.
    pub frames: u32,
    /// Where it puts their lines.
    pub lines: Vec<u8>,
}

/// The camera, the worker that `acquire` is, and the application at the same time, each with a pass of its own that is
/// joined again. Where no thread can be made they work one after another, who acquires first and the camera last.
pub fn work_crew<
    R: Threads + Wait + Sync,
    L: Link + Send + Drop,
    C: Clock + Send + Drop,
    G: Gate + Sync,
    D,
    A: FnOnce(Pass) -> Worked<D>,
>(
    rt: &R,
    alloc: Global,
    board: &Board,
    pass: &mut Pass,
    gate: &G,
    side: CameraSide<L, C>,
    acquire: A,
    taker: ApplicationSide<C>,
) -> (CameraDone<L, C>, D, ApplicationDone<C>)
    requires table { pass.old.table ≡ board_id board.now }
    requires camera { side.camera.shelf.count ≡ 0 }
    requires acquires { (given : _) → IsNewPass (board_id board.now) given → A.pre acquire given }
    requires comes_back { (given : _) (worked : _) → IsNewPass (board_id board.now) given → A.post acquire given worked → ComesBack given worked.pass }
    ensures ran { RanThree
        (λ given back. ServesAndStops result.0.end side.camera (wire (L.received side.link) (L.sent side.link) (L.faults side.link))
        (wire (L.received result.0.link) (L.sent result.0.link) (L.faults result.0.link)) (C.told side.clock) (C.told result.0.clock) given back × Works is_cameras given back)
        (λ given back. A.post acquire given (record { pass = back; done = result.1 }))
        (λ given back. AppliesAndStops taker.frames (C.told taker.clock) (C.told result.2.clock) taker.lines.items result.2.lines.items result.2.answer given back × Works is_applications given back)
        pass.old pass.new }
    ensures table { pass.new.table ≡ pass.old.table }
    ensures hands { SameHands pass.old pass.new }
{
    let CameraSide {
        camera,
        link,
        clock: camera_clock,
    } = side;
    let ApplicationSide {
        clock: app_clock,
        frames,
        lines,
    } = taker;
    run_three(
        rt,
        board,
        pass,
        move |given: Pass| -> Worked<CameraDone<L, C>>
            requires { IsNewPass (board_id board.now) given × (camera.shelf.count ≡ 0) }
            ensures { ServesAndStops result.done.end camera (wire (L.received link) (L.sent link) (L.faults link))
                (wire (L.received result.done.link) (L.sent result.done.link) (L.faults result.done.link)) (C.told camera_clock) (C.told result.done.clock) given result.pass
                × Works is_cameras given result.pass × ComesBack given result.pass }
        { work_camera(alloc, board, given, camera, link, camera_clock) },
        acquire,
        move |given: Pass| -> Worked<ApplicationDone<C>>
            requires { IsNewPass (board_id board.now) given }
            ensures { AppliesAndStops frames (C.told app_clock) (C.told result.done.clock) lines.items result.done.lines.items result.done.answer given result.pass
                × Works is_applications given result.pass × ComesBack given result.pass }
        { work_application(rt, alloc, board, given, app_clock, gate, frames, lines) },
    )
}
