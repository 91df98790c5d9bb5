//! A tape that keeps what its link heard.

use crate::case::Case;
use crate::links::{CAMERA, control_link};
use crate::printing::{print_bytes, print_sent};
use anyhow::Result;
use gev_links::{Link, MemoryLink};
use gev_record::Tape;

/// Four receives of a tape for so many, and a send: what each gave, what the tape kept, its address, and what was sent.
pub fn hear_some(rt: &HostRuntime, case: &Case<'_>) -> Result<()> {
    let link = control_link(rt.alloc(), case, CAMERA)?;
    match Tape::new(rt.alloc(), link, case.small(0)) {
        Ok(mut tape) => {
            print_tape(rt, &mut tape)?;
            print_sent(rt, &tape.into_inner())
        }
        Err((_, error)) => Err(error.into()),
    }
}

/// The receives, what was kept, the address, and a send.
fn print_tape(rt: &HostRuntime, tape: &mut Tape<MemoryLink<'_>>) -> Result<()> {
    print_heard(rt, tape)?;
    print_kept(rt, tape)?;
    print_end(rt, tape)
}

/// The receives.
fn print_heard(rt: &HostRuntime, tape: &mut Tape<MemoryLink<'_>>) -> Result<()> {
    let mut out = [0; 9000];
    print!(rt; "hears")?;
    for _ in 0..4 {
        print!(rt; "\n  {:?}", tape.recv(&mut out))?;
    }
    Ok(())
}

/// What was kept.
fn print_kept(rt: &HostRuntime, tape: &Tape<MemoryLink<'_>>) -> Result<()> {
    print!(rt; "\n  kept {}", tape.len())?;
    for turn in 0..4 {
        print_turn(rt, tape, turn)?;
    }
    Ok(())
}

/// What was kept of a turn.
fn print_turn(rt: &HostRuntime, tape: &Tape<MemoryLink<'_>>, turn: u32) -> Result<()> {
    print!(rt; "\n  {turn} ")?;
    match tape.datagram(turn) {
        Some(bytes) => print_bytes(rt, bytes)?,
        None => print!(rt; "none")?,
    }
    Ok(())
}

/// The address, and a send.
fn print_end(rt: &HostRuntime, tape: &mut Tape<MemoryLink<'_>>) -> Result<()> {
    let peer = tape.peer();
    print!(rt;
        "\n  at {:x}:{} {:?}",
        peer.address,
        peer.port,
        tape.send(CAMERA, b"x")
    )?;
    Ok(())
}
