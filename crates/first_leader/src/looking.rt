//! A look at the stream.

ghost use Rattle.std.specs.Prelude.{◌≡◌, ◌≤◌, length, IfOk, OnErr};
ghost use Rattle.gev_links.specs.Faults.{Rose};
ghost use Rattle.gev_links.specs.Links.{receive_room};
ghost use Rattle.first_leader.specs.Waiting.{Looks, Drops, IsLeader};

use crate::leaders::first_leader_in;
use crate::leading::FirstLeader;
use gev_far::PeekLink;
use gev_links::{Failed, Link};
use gev_types::Peer;

// Receives what was shown and drops it.
fn drop_one<L: Link>(stream: &mut L, out: &mut [u8]) -> Result<(), Failed>
    requires room { length out.old ≡ receive_room }
    ensures drops { Drops (L.received stream.old) (L.received stream.new) }
    ensures no_fault { IfOk result (λ _. L.faults stream.new ≡ L.faults stream.old) }
    ensures failed { OnErr result (Rose (L.faults stream.old) (L.faults stream.new)) }
{
    match stream.recv(out) {
        Ok(_) => Ok(()),
        Err(failed) => Err(failed),
    }
}

// What a datagram of this peer tells, if it's a leader of the camera.
fn leader_of(camera: Peer, peer: Peer, packet_size: u16, bytes: &[u8]) -> Option<FirstLeader>
    requires { length bytes.now ≤ 9000 }
    ensures { IsLeader packet_size result }
{
    if peer.address != camera.address {
        return None;
    }
    first_leader_in(packet_size, bytes)
}

/// Looks at what waits on the stream: a leader of the camera stays there, everything else is received and dropped.
pub(crate) fn look<L: PeekLink>(
    stream: &mut L,
    camera: Peer,
    packet_size: u16,
    out: &mut [u8],
) -> Result<Option<FirstLeader>, Failed>
    requires room { length out.old ≡ receive_room }
    ensures looks { Looks packet_size result (L.received stream.old) (L.received stream.new) }
    ensures no_fault { IfOk result (λ _. L.faults stream.new ≡ L.faults stream.old) }
    ensures failed { OnErr result (Rose (L.faults stream.old) (L.faults stream.new)) }
{
    match stream.peek(out) {
        Ok(Some((count, peer))) => match leader_of(camera, peer, packet_size, &out[..count]) {
            Some(leader) => Ok(Some(leader)),
            None => match drop_one(stream, out) {
                Ok(()) => Ok(None),
                Err(failed) => Err(failed),
            },
        },
        Ok(None) => Ok(None),
        Err(failed) => Err(failed),
    }
}
