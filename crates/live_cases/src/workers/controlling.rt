//! The camera's setup, and the control part of a turn.

use crate::case::Case;
use crate::links::{CAMERA, HOST, STREAM, control_link};
use crate::printing::print_sent;
use anyhow::Result;
use control_client::Client;
use gev_control::{client_turn, send_unless, setup};
use gev_links::{Clock, MemoryClock, MemoryLink};
use gvcp_wire::Command;
use std::sync::Wait;

/// READREG of the register at 0x0A00, the control channel's privilege.
pub const READ: Command<'static> = Command::ReadReg(b"\0\0\x0a\0");

/// A client with nothing to do, or with a READREG outstanding since moment 0.
pub fn new_client(asks: bool) -> Client {
    let mut client = Client::new();
    if asks {
        let _req = client.submit(&READ, 0);
    }
    client
}

/// A client whose READREG is outstanding since moment 0 and was sent once.
pub fn waiting_client() -> Client {
    let mut client = new_client(true);
    let _sent = client.to_send();
    client
}

/// A setup: its end, the moment that is read next, and what was sent.
pub fn set_up<R: Wait>(rt: &HostRuntime, handles: &R, case: &Case<'_>) -> Result<()> {
    let mut link = control_link(rt.alloc(), case, HOST)?;
    set_up_over(rt, handles, case.moments, &mut link)
}

/// The same, over this link.
fn set_up_over<R: Wait>(
    rt: &HostRuntime,
    handles: &R,
    moments: &[u64],
    link: &mut MemoryLink<'_>,
) -> Result<()> {
    let mut client = Client::new();
    let mut clock = MemoryClock::new(moments);
    let end = setup(handles, &mut client, link, &mut clock, CAMERA, STREAM);
    print!(rt; "{end:?} next {}", clock.now())?;
    print_sent(rt, link)
}

/// The control part of a turn at a moment, where something failed before or not, with a command outstanding since
/// moment 0 and sent once.
pub fn make_turn(rt: &HostRuntime, case: &Case<'_>) -> Result<()> {
    let mut link = control_link(rt.alloc(), case, HOST)?;
    make_turn_over(rt, case.number(0), case.number(1) == 1, &mut link)
}

/// The same, over this link.
fn make_turn_over(
    rt: &HostRuntime,
    moment: u64,
    failed: bool,
    link: &mut MemoryLink<'_>,
) -> Result<()> {
    let mut client = waiting_client();
    let mut out = [0; 9000];
    let end = client_turn(&mut client, link, CAMERA, moment, failed, &mut out);
    print!(rt; "{end:?}")?;
    print_sent(rt, link)
}

/// Two sends, and one after a failure: whether something had failed by then.
pub fn send_some(rt: &HostRuntime, case: &Case<'_>) -> Result<()> {
    let mut link = control_link(rt.alloc(), case, HOST)?;
    send_over(rt, &mut link)
}

/// The same, over this link.
fn send_over(rt: &HostRuntime, link: &mut MemoryLink<'_>) -> Result<()> {
    let first = send_unless(link, CAMERA, b"a", false);
    let second = send_unless(link, CAMERA, b"b", false);
    let third = send_unless(link, CAMERA, b"c", true);
    print!(rt; "{first} {second} {third}")?;
    print_sent(rt, link)
}
