//! Lists of orders over links in memory, and what a heartbeat told.

use crate::case::Case;
use crate::links::{CAMERA, HOST, control_link};
use crate::printing::{print_bytes, print_sent};
use crate::workers::controlling::{READ, waiting_client};
use anyhow::Result;
use control_client::Client;
use gev_control::{
    Carried, Order, TurnEnd, carry_out, carry_out_all, client_turn, heartbeat_value,
};
use gev_links::{Clock, MemoryClock, MemoryLink};
use std::alloc::{AllocError, Global};
use std::sync::Wait;

/// The orders of a row: behind the first three numbers three for each, which are 0 for a WRITEREG, 1 for a READREG and
/// 2 for a READMEM, the address, and the value or the count.
fn orders(alloc: Global, case: &Case<'_>) -> Result<Vec<Order>, AllocError> {
    let mut found = Vec::new(alloc);
    for part in case.numbers.chunks(3).skip(1) {
        found.push(order_of(part))?;
    }
    Ok(found)
}

/// The order of these three numbers.
fn order_of(part: &[u64]) -> Order {
    order(
        part.first().copied().unwrap_or(0),
        small_at(part, 1),
        small_at(part, 2),
    )
}

/// The number at this place as a smaller one, 0 where it isn't.
fn small_at(part: &[u64], place: usize) -> u32 {
    let number = part.get(place).copied().unwrap_or(0);
    u32::try_from(number).unwrap_or(0)
}

fn order(kind: u64, address: u32, value: u32) -> Order {
    match kind {
        0 => Order::WriteReg { address, value },
        1 => Order::ReadReg { address },
        _ => Order::ReadMem {
            address,
            count: u16::try_from(value).unwrap_or(0),
        },
    }
}

/// A client with the limit of the first number, to which a READREG was submitted at moment 0 if the second is 1.
fn limited_client(case: &Case<'_>) -> Client {
    let mut client = Client::with_limit(case.number(0));
    if case.number(1) == 1 {
        let _req = client.submit(&READ, 0);
    }
    client
}

/// A list of orders, by a client with the limit of the first number, to which a READREG was submitted at moment 0 if
/// the second is 1: its end, how many were submitted, the moment that is read next, what the last acknowledge told,
/// and what was sent.
pub fn carry<R: Wait>(rt: &HostRuntime, handles: &R, case: &Case<'_>) -> Result<()> {
    let list = orders(rt.alloc(), case)?;
    carry_list(rt, handles, case, list.as_slice())
}

/// The same, of this list.
fn carry_list<R: Wait>(
    rt: &HostRuntime,
    handles: &R,
    case: &Case<'_>,
    list: &[Order],
) -> Result<()> {
    let mut link = control_link(rt.alloc(), case, HOST)?;
    carry_over(rt, handles, case, list, &mut link)
}

/// The same, over this link.
fn carry_over<R: Wait>(
    rt: &HostRuntime,
    handles: &R,
    case: &Case<'_>,
    list: &[Order],
    link: &mut MemoryLink<'_>,
) -> Result<()> {
    let mut client = limited_client(case);
    if list.is_empty() && client.is_idle() {
        print!(rt; "nothing to wait for")?;
        return Ok(());
    }
    let mut clock = MemoryClock::new(case.moments);
    let done = carry_out(handles, &mut client, link, &mut clock, CAMERA, list);
    print_carried(rt, done, clock.now(), client.body())?;
    print_sent(rt, link)
}

/// Prints how a list was carried out, the moment that is read next, and what the last acknowledge told.
fn print_carried(rt: &HostRuntime, done: Carried, next: u64, told: &[u8]) -> Result<()> {
    print!(rt; "{:?} of {} next {next} told ", done.end, done.begun)?;
    print_bytes(rt, told)
}

/// A list of orders that goes on behind a refusal: its end, the first refusal, the moment that is read next, and what was
/// sent.
pub fn carry_through<R: Wait>(rt: &HostRuntime, handles: &R, case: &Case<'_>) -> Result<()> {
    let list = orders(rt.alloc(), case)?;
    carry_list_through(rt, handles, case, list.as_slice())
}

/// The same, of this list.
fn carry_list_through<R: Wait>(
    rt: &HostRuntime,
    handles: &R,
    case: &Case<'_>,
    list: &[Order],
) -> Result<()> {
    let mut link = control_link(rt.alloc(), case, HOST)?;
    carry_through_over(rt, handles, case, list, &mut link)
}

/// The same, over this link.
fn carry_through_over<R: Wait>(
    rt: &HostRuntime,
    handles: &R,
    case: &Case<'_>,
    list: &[Order],
    link: &mut MemoryLink<'_>,
) -> Result<()> {
    let mut client = Client::with_limit(case.number(0));
    let mut clock = MemoryClock::new(case.moments);
    let done = carry_out_all(handles, &mut client, link, &mut clock, CAMERA, list);
    print!(rt;
        "{:?} refused {:?} next {}",
        done.end,
        done.refused,
        clock.now()
    )?;
    print_sent(rt, link)
}

/// The control part of a turn at a moment, with a READREG of the privilege outstanding since moment 0 and sent once: how
/// it ended, and what the heartbeat told if the turn went on.
pub fn tell_heartbeat(rt: &HostRuntime, case: &Case<'_>) -> Result<()> {
    let mut link = control_link(rt.alloc(), case, HOST)?;
    tell_over(rt, case.number(0), &mut link)
}

/// The same, over this link.
fn tell_over(rt: &HostRuntime, moment: u64, link: &mut MemoryLink<'_>) -> Result<()> {
    let mut client = waiting_client();
    let waited = !client.is_idle();
    let mut out = [0; 9000];
    let end = client_turn(&mut client, link, CAMERA, moment, false, &mut out);
    match end {
        TurnEnd::GoesOn => print!(rt; "{:?}", heartbeat_value(&client, waited))?,
        _ => print!(rt; "{end:?}")?,
    }
    Ok(())
}
