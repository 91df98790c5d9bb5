//! The registers of the two URLs.

ghost use Rattle.std.specs.Prelude.{◌≡◌, IfOk, IfSome, Some, None};
ghost use Rattle.client_machine.specs.Machine.{IsIdle};
ghost use Rattle.camera_description.specs.Url.{IsWithin};
ghost use Rattle.camera_description.specs.Locating.{GivesUrl, GivesSecond, GivesLocation, FailsAs};

use crate::describe_end::DescribeEnd;
use crate::location::Location;
use crate::reading::{end_by, memory_in, read_memory};
use crate::url::location_in;
use control_client::Client;
use gev_links::{Clock, Link};
use gev_types::Peer;
use std::marker::Brand;
use std::sync::Wait;

/// The addresses of the first and the second URL.
const FIRST_URL: u32 = 0x0200;

const SECOND_URL: u32 = 0x0400;

/// The bytes of a URL's register.
const URL_SIZE: u16 = 512;

/// What a URL's register tells: where the description lies, if it lies in the camera.
fn read_url<R: Wait, L: Link, C: Clock>(
    rt: &R,
    client: &mut Client,
    link: L,
    clock: &mut C,
    camera: Peer,
    address: u32,
) -> (L, Result<Option<Location>, DescribeEnd>)
    requires idle { IsIdle client.old }
    ensures gives { GivesUrl camera
        (record { heard = L.received link; sent = L.sent link; told = C.told clock.old; client = client.old }) address
        (record { heard = L.received result.0; sent = L.sent result.0; told = C.told clock.new; client = client.new }) result.1 }
    ensures within { IfOk result.1 (λ found. IfSome found IsWithin) }
    ensures fails { FailsAs result.1 (L.faults link) (L.faults result.0) }
{
    let (back, end) = read_memory::<R, L, C, Brand>(
        rt, client, link, clock, camera, address, URL_SIZE,
    );
    match end_by(end) {
        Some(failure) => (back, Err(failure)),
        None => (
            back,
            Ok(location_in(memory_in(client.body(), usize::from(URL_SIZE)))),
        ),
    }
}

/// Where the description lies by the second URL.
fn locate_second<R: Wait, L: Link, C: Clock>(
    rt: &R,
    client: &mut Client,
    link: L,
    clock: &mut C,
    camera: Peer,
) -> (L, Result<Location, DescribeEnd>)
    requires idle { IsIdle client.old }
    ensures gives { GivesSecond camera
        (record { heard = L.received link; sent = L.sent link; told = C.told clock.old; client = client.old })
        (record { heard = L.received result.0; sent = L.sent result.0; told = C.told clock.new; client = client.new }) result.1 }
    ensures within { IfOk result.1 IsWithin }
    ensures fails { FailsAs result.1 (L.faults link) (L.faults result.0) }
{
    let (back, second) = read_url(rt, client, link, clock, camera, SECOND_URL);
    match second {
        Ok(Some(location)) => (back, Ok(location)),
        Ok(None) => (back, Err(DescribeEnd::NoDescription)),
        Err(end) => (back, Err(end)),
    }
}

/// Where the description lies by the first URL, or else by the second.
pub(crate) fn locate<R: Wait, L: Link, C: Clock>(
    rt: &R,
    client: &mut Client,
    link: L,
    clock: &mut C,
    camera: Peer,
) -> (L, Result<Location, DescribeEnd>)
    requires idle { IsIdle client.old }
    ensures gives { GivesLocation camera
        (record { heard = L.received link; sent = L.sent link; told = C.told clock.old; client = client.old })
        (record { heard = L.received result.0; sent = L.sent result.0; told = C.told clock.new; client = client.new }) result.1 }
    ensures within { IfOk result.1 IsWithin }
    ensures fails { FailsAs result.1 (L.faults link) (L.faults result.0) }
{
    let (back, first) = read_url(rt, client, link, clock, camera, FIRST_URL);
    match first {
        Ok(found) => match found {
            Some(location) => (back, Ok(location)),
            None => locate_second(rt, client, back, clock, camera),
        },
        Err(end) => (back, Err(end)),
    }
}
