//! One read of the camera's memory.

ghost use Rattle.std.specs.Prelude.{◌≡◌, false, drop};
ghost use Rattle.gev_control.specs.Ends.{is_fault_end};
ghost use Rattle.gev_control.specs.Sends.{Fails};
ghost use Rattle.link_filters.specs.Reads.{told_count};
ghost use Rattle.camera_description.specs.Memory.{memory_in, Reads};
ghost use Rattle.camera_description.specs.Describing.{end_by};

use crate::describe_end::DescribeEnd;
use control_client::Client;
use gev_control::{AcqEnd, Order, carry_out};
use gev_links::{Clock, Link};
use gev_types::Peer;
use link_filters::{AskedFor, MemoryReads};
use std::sync::Wait;

/// Reads so many bytes of the camera's memory over a link, which is given back, by one READMEM.
pub(crate) fn read_memory<R: Wait, L: Link, C: Clock, A: AskedFor>(
    rt: &R,
    client: &mut Client,
    link: L,
    clock: &mut C,
    camera: Peer,
    address: u32,
    count: u16,
) -> (L, AcqEnd)
    requires address { address ≡ A.address }
    requires count { count ≡ A.count }
    requires before { A.before ≡ told_count (L.received link) }
    ensures reads { Reads camera
        (record { heard = L.received link; sent = L.sent link; told = C.told clock.old; client = client.old }) address count
        (record { heard = L.received result.0; sent = L.sent result.0; told = C.told clock.new; client = client.new }) result.1 }
    ensures fails { Fails false (is_fault_end result.1) (L.faults link) (L.faults result.0) }
{
    let mut filter: MemoryReads<L, A> = MemoryReads::new(link, address, count);
    let orders = [Order::ReadMem { address, count }];
    let end = carry_out(rt, client, &mut filter, clock, camera, &orders).end;
    (filter.into_inner(), end)
}

/// How the end of a read ends all, if it does.
pub(crate) fn end_by(end: AcqEnd) -> Option<DescribeEnd>
    ensures { result ≡ end_by end }
{
    match end {
        AcqEnd::Stopped => None,
        AcqEnd::Spent => Some(DescribeEnd::LinkFault),
        AcqEnd::Fault => Some(DescribeEnd::LinkFault),
        AcqEnd::NoAnswer(req) => Some(DescribeEnd::NoAnswer(req)),
        AcqEnd::Refused(status) => Some(DescribeEnd::Refused(status)),
    }
}

/// What follows the address in the body of an acknowledge.
fn behind_address(body: &[u8]) -> &[u8]
    ensures { result.now ≡ drop 4 body.now }
{
    if body.len() < 4 {
        return &[];
    }
    &body[4..]
}

/// The bytes of the camera's memory that an acknowledge's body tells, at most so many.
pub(crate) fn memory_in(body: &[u8], count: usize) -> &[u8]
    ensures { result.now ≡ memory_in count body.now }
{
    let bytes = behind_address(body);
    if bytes.len() <= count {
        return bytes;
    }
    &bytes[..count]
}
