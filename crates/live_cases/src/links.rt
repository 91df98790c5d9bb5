//! The addresses of a row, its links, and tapes of them.

ghost use Rattle.std.specs.Prelude.{◌≡◌, [], Some, IfOk};

use crate::case::{Case, Heard};
use anyhow::Result;
use control_client::Client;
use gev_acq::Host;
use gev_links::{DiscardingLink, MemoryClock, MemoryLink};
use gev_record::Tape;
use gev_types::{NoMemory, Peer};
use std::alloc::Global;

/// What a reader has of the outside, in memory.
pub type MemoryHost<'x> = Host<MemoryLink<'x>, MemoryLink<'x>, MemoryClock<'x>>;

/// The camera's control channel.
pub const CAMERA: Peer = Peer {
    address: 0x7f00_0001,
    port: 3956,
};

/// The host's control channel.
pub const HOST: Peer = Peer {
    address: 0x7f00_0001,
    port: 1,
};

/// The host's link for the stream.
pub const STREAM: Peer = Peer {
    address: 0x7f00_0001,
    port: 49_152,
};

/// How many datagrams a link keeps of what is sent.
const ROOM: usize = 20;

/// What a silent link hears.
pub const SILENCE: Heard<'static> = &[];

/// No numbers, as of sends that fail, or moments.
pub const NONE: &[u64] = &[];

/// The control link, or the camera's, at this address.
pub fn control_link<'x>(
    alloc: Global,
    case: &Case<'x>,
    peer: Peer,
) -> Result<MemoryLink<'x>, NoMemory>
    ensures received { IfOk result (λ link. link.received ≡ Some []) }
{
    MemoryLink::new(alloc, peer, case.control, case.receives, case.sends, ROOM)
}

/// The stream's link, on which nothing is sent.
fn stream_link<'x>(alloc: Global, case: &Case<'x>) -> Result<MemoryLink<'x>, NoMemory> {
    MemoryLink::new(alloc, STREAM, case.stream, case.losses, NONE, 0)
}

/// A reader's links and clock, with this client.
pub fn new_host<'x>(
    alloc: Global,
    case: &Case<'x>,
    client: Client,
) -> Result<MemoryHost<'x>, NoMemory>
    ensures client { IfOk result (λ host. host.client ≡ client) }
{
    let stream = stream_link(alloc, case)?;
    Ok(Host {
        stream,
        control: control_link(alloc, case, HOST)?,
        clock: MemoryClock::new(case.moments),
        client,
    })
}

/// A tape for so many receives of a link at this address that hears this.
pub fn tape_of<'x>(
    alloc: Global,
    peer: Peer,
    hears: Heard<'x>,
    turns: u32,
) -> Result<Tape<DiscardingLink<'x>>>
    ensures turns { IfOk result (λ tape. tape.turns ≡ turns) }
    ensures kept { IfOk result (λ tape. tape.kept ≡ []) }
{
    let link = DiscardingLink::new(alloc, peer, hears)?;
    match Tape::new(alloc, link, turns) {
        Ok(tape) => Ok(tape),
        Err((_, error)) => Err(error.into()),
    }
}
