//! The bytes of a description, written as they come.

ghost use Rattle.std.specs.Prelude.{◌≡◌, ◌≢◌, false};
ghost use Rattle.client_machine.specs.Machine.{IsIdle};
ghost use Rattle.gev_links.specs.Faults.{Rose};
ghost use Rattle.gev_control.specs.Sends.{Fails};
ghost use Rattle.camera_description.specs.Memory.{asked_count};
ghost use Rattle.camera_description.specs.Describing.{Copies, is_fault};
ghost use Rattle.camera_description.specs.Url.{IsWithin};

use crate::describe_end::DescribeEnd;
use crate::location::Location;
use crate::reading::{end_by, memory_in, read_memory};
use control_client::Client;
use gev_links::{Clock, Link, Sink, write_all};
use gev_types::Peer;
use std::marker::Brand;
use std::sync::Wait;

/// The most bytes of one READMEM.
const PIECE_SIZE: u32 = 512;

/// How many bytes are asked for where so many are left: a multiple of 4.
fn asked_count(rest: u32) -> u16
    ensures { result ≡ asked_count rest }
{
    ((rest.min(PIECE_SIZE) + 3) / 4 * 4) as u16
}

/// Reads a description and writes its bytes.
pub(crate) fn copy<R: Wait, L: Link, C: Clock, K: Sink>(
    rt: &R,
    client: &mut Client,
    given: L,
    clock: &mut C,
    sink: &mut K,
    camera: Peer,
    location: Location,
) -> (L, DescribeEnd)
    requires idle { IsIdle client.old }
    requires within { IsWithin location }
    ensures copies { Copies camera location
        (record { heard = L.received given; sent = L.sent given; told = C.told clock.old; client = client.old })
        (record { heard = L.received result.0; sent = L.sent result.0; told = C.told clock.new; client = client.new })
        result.1 (K.written sink.old) (K.written sink.new) }
    ensures fails { Fails false (is_fault result.1) (L.faults given) (L.faults result.0) }
    ensures steady { result.1 ≢ DescribeEnd.WriteFault → K.faults sink.new ≡ K.faults sink.old }
    ensures failed { result.1 ≡ DescribeEnd.WriteFault → Rose (K.faults sink.old) (K.faults sink.new) }
{
    let mut link = given;
    let mut place = 0;
    while place < location.size {
        let rest = location.size - place;
        let (back, end) = read_memory::<R, L, C, Brand>(
            rt,
            client,
            link,
            clock,
            camera,
            location.address + place,
            asked_count(rest),
        );
        link = back;
        if let Some(failure) = end_by(end) {
            return (link, failure);
        }
        let count = rest.min(PIECE_SIZE);
        let Ok(()) = write_all(sink, memory_in(client.body(), count as usize)) else {
            return (link, DescribeEnd::WriteFault);
        };
        place += count;
    }
    (link, DescribeEnd::Done)
}
