//! What a receive tells of a camera.

ghost use Rattle.std.specs.Prelude.{◌≡◌, length, IfOk, OnErr};
ghost use Rattle.gev_links.specs.Faults.{Rose};
ghost use Rattle.gev_links.specs.Links.{Answer, failed, receive_room};
ghost use Rattle.gev_links.specs.Moments.{Tells};
ghost use Rattle.camera_search.specs.Found.{told_by, told_in};

use crate::asking::REQUEST;
use crate::{DiscoveryAck, read_discovery};
use gev_links::{Failed, Link};
use gvcp_wire::parse_ack;

/// What a datagram tells, if it answers DISCOVERY.
fn told_by(bytes: &[u8]) -> Option<DiscoveryAck>
    ensures { result ≡ told_by bytes.now }
{
    match parse_ack(bytes) {
        Ok(ack) => {
            if ack.req == REQUEST {
                read_discovery(&ack)
            } else {
                None
            }
        }
        Err(_) => None,
    }
}

/// Receives once into `room`: what the datagram tells, if one came that answers DISCOVERY.
pub(crate) fn hear<L: Link>(link: &mut L, room: &mut [u8]) -> Result<Option<DiscoveryAck>, Failed>
    requires room { length room.old ≡ receive_room }
    ensures told { IfOk result (λ told. (answer : Answer) × Tells (L.received link.old) (L.received link.new) answer × (told ≡ told_in answer)) }
    ensures lost { OnErr result (Tells (L.received link.old) (L.received link.new) failed) }
    ensures sent { L.sent link.new ≡ L.sent link.old }
    ensures no_fault { IfOk result (λ _. L.faults link.new ≡ L.faults link.old) }
    ensures failed { OnErr result (Rose (L.faults link.old) (L.faults link.new)) }
{
    match link.recv(room) {
        Ok(came) => match came {
            Some((count, _)) => Ok(told_by(&room[..count])),
            None => Ok(None),
        },
        Err(failed) => Err(failed),
    }
}
