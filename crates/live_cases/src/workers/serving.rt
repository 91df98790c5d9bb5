//! The camera's worker over a link and a clock in memory.

ghost use Rattle.std.specs.Prelude.{◌≡◌, ◌<◌, IfOk};
ghost use Rattle.buffer_words.specs.Boards.{board_id};

use crate::case::Case;
use crate::links::{CAMERA, control_link};
use crate::printing::print_sent;
use anyhow::{Result, anyhow};
use buffer_words::{Board, Pass};
use camera_sim::Camera;
use gev_links::{Clock, Link, MemoryClock, MemoryLink};
use gev_serve::{Rooms, ServeEnd, ServeTurn, serve, serve_once};
use gev_types::{Peer, Shape};
use std::alloc::Global;

const SHAPE: Shape = Shape {
    pixel: 0x0108_0001,
    size_x: 64,
    size_y: 48,
};

/// A camera that has made no frame yet.
fn new_camera(alloc: Global) -> Result<Camera>
    ensures { IfOk result (λ camera. camera.shelf.count < 1) }
{
    let camera = Camera::new(alloc, 0, SHAPE, 4)?;
    if camera.frame_count() < 1 {
        Ok(camera)
    } else {
        Err(anyhow!("a frame already"))
    }
}

/// Three turns of a new camera where the acquisition runs or not: its end, the moment that is read next, what it sent,
/// and whether its link hears more.
pub fn serve_some(rt: &HostRuntime, case: &Case<'_>) -> Result<()> {
    let (board, mut pass) = Board::new(rt.alloc())?;
    if case.number(0) == 1 {
        let _ = board.start(&mut pass);
    }
    serve_on(rt, case, &board, &mut pass)
}

/// The same on this board.
fn serve_on(rt: &HostRuntime, case: &Case<'_>, board: &Board, pass: &mut Pass) -> Result<()>
    requires table { pass.old.table ≡ board_id board.now }
{
    let mut camera = new_camera(rt.alloc())?;
    serve_by(rt, case, board, pass, &mut camera)
}

/// The same by this camera.
fn serve_by(
    rt: &HostRuntime,
    case: &Case<'_>,
    board: &Board,
    pass: &mut Pass,
    camera: &mut Camera,
) -> Result<()>
    requires table { pass.old.table ≡ board_id board.now }
    requires count { camera.old.shelf.count < 1 }
{
    let mut link = control_link(rt.alloc(), case, CAMERA)?;
    let mut clock = MemoryClock::new(case.moments);
    let end = serve(rt.alloc(), board, pass, camera, &mut link, &mut clock, 3);
    print_served(rt, end, clock.now(), &mut link)
}

/// Prints how the turns ended, the moment that is read next, what was sent, and whether the link hears more.
fn print_served(
    rt: &HostRuntime,
    end: ServeEnd,
    next: u64,
    link: &mut MemoryLink<'_>,
) -> Result<()> {
    print!(rt; "{end:?} next {next}")?;
    print_sent(rt, link)?;
    print_next(rt, link)
}

/// Prints what a link hears next.
fn print_next(rt: &HostRuntime, link: &mut MemoryLink<'_>) -> Result<()> {
    let mut out = [0; 9000];
    print!(rt; "\n  hears {:?}", link.recv(&mut out))?;
    Ok(())
}

/// A turn alone, whose datagram is the front of what is handed in: so many bytes of the first datagram.
pub fn obey_one(rt: &HostRuntime, case: &Case<'_>) -> Result<()> {
    let mut camera = new_camera(rt.alloc())?;
    match case.control.first() {
        Some(Some((bytes, peer))) => obey_by(rt, case, bytes, *peer, &mut camera),
        _ => Err(anyhow!("no datagram")),
    }
}

/// The same by this camera, with these bytes from this peer.
fn obey_by(
    rt: &HostRuntime,
    case: &Case<'_>,
    bytes: &[u8],
    peer: Peer,
    camera: &mut Camera,
) -> Result<()>
    requires count { camera.old.shelf.count < 1 }
{
    let mut link = control_link(rt.alloc(), case, CAMERA)?;
    let mut rooms = Rooms::new();
    let end = serve_once(
        rt.alloc(),
        camera,
        &mut link,
        Some((bytes.len().min(16), peer)),
        bytes,
        case.number(0),
        &mut rooms,
    );
    print_turn(rt, end, camera.executed(), &link)
}

/// Prints how a turn ended, how many commands the camera executed, and what was sent.
fn print_turn(
    rt: &HostRuntime,
    end: ServeTurn,
    executed: u64,
    link: &MemoryLink<'_>,
) -> Result<()> {
    print!(rt; "{end:?} executed {executed}")?;
    print_sent(rt, link)
}
