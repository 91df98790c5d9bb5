//! What a link hears, and what was sent on it.

use super::fields::field;
use anyhow::Result;
use gev_links::MemoryLink;
use gev_types::{NoMemory, Peer};
use std::alloc::Global;
use std::str::Split;

/// The camera's control channel.
pub const CAMERA: Peer = Peer {
    address: 0x7f00_0001,
    port: 3956,
};

/// The host's own address.
pub const HOST: Peer = Peer {
    address: 0x7f00_0001,
    port: 49_152,
};

/// How many datagrams a link keeps of what is sent.
pub const ROOM: usize = 600;

/// Somebody else.
const STRANGER: Peer = Peer {
    address: 0x7f00_0002,
    port: 3956,
};

/// A datagram, and whether the camera sent it.
#[derive(Drop)]
pub struct Datagram {
    own: bool,
    bytes: Vec<u8>,
}

/// The next field, one of receives. One that is `.` is empty.
pub fn datagrams(alloc: Global, fields: &mut Split<'_, char>) -> Result<Vec<Option<Datagram>>> {
    let mut found = Vec::new(alloc);
    for part in field(fields).split(',') {
        if part != "." {
            found.push(reception(alloc, part)?)?;
        }
    }
    Ok(found)
}

/// What a receive gets: nothing by `-`, or a datagram. One behind `!` comes from somebody else.
fn reception(alloc: Global, part: &str) -> Result<Option<Datagram>> {
    if part == "-" {
        return Ok(None);
    }
    let others = part.strip_prefix("!");
    let bytes = hex::decode(alloc, others.unwrap_or(part))?;
    Ok(Some(Datagram {
        own: others.is_none(),
        bytes,
    }))
}

/// These datagrams as what a link hears.
pub fn heard(
    alloc: Global,
    datagrams: &[Option<Datagram>],
) -> Result<Vec<Option<(&[u8], Peer)>>, NoMemory> {
    let mut all = Vec::with_capacity(alloc, datagrams.len())?;
    for datagram in datagrams {
        match datagram {
            Some(came) => {
                let peer = if came.own { CAMERA } else { STRANGER };
                all.push(Some((came.bytes.as_slice(), peer)))?;
            }
            None => all.push(None)?,
        }
    }
    Ok(all)
}

/// Prints what was sent on a link.
pub fn print_link(rt: &HostRuntime, link: &MemoryLink<'_>) -> Result<()> {
    for (peer, bytes) in link.sent() {
        let digits = hex::encode(rt.alloc(), bytes.as_slice())?;
        print!(rt; "\n  to {:x}:{} {digits}", peer.address, peer.port)?;
    }
    Ok(())
}
