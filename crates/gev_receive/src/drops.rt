//! Datagrams of the stream that the system dropped.

ghost use Rattle.std.specs.Prelude.{◌≡◌};

use gev_far::{Drops, FarPorts};
use gev_links::Sink;
use std::alloc::{AllocError, Global};

/// The line for standard error.
fn drops_line(alloc: Global, drops: Drops) -> Result<String, AllocError> {
    let Drops {
        datagrams,
        socket_bytes,
    } = drops;
    format!(in alloc;
        "gevacq: the system dropped {datagrams} datagrams, its socket holds {socket_bytes} bytes: raise net.core.rmem_max\n"
    )
}

/// Tells on standard error how many of the stream's datagrams the system dropped, where it tells that it did. Where
/// memory is wanting for the line it's left out.
pub(crate) fn tell_drops<P: FarPorts, K: Sink>(
    alloc: Global,
    ports: &P,
    stream: &P::L,
    sink: &mut K,
)
    ensures written { K.written sink.new ≡ K.written sink.old }
    ensures faults { K.faults sink.new ≡ K.faults sink.old }
{
    let Some(drops) = ports.drops(stream) else {
        return;
    };
    if drops.datagrams > 0 {
        match drops_line(alloc, drops) {
            Ok(line) => sink.tell(line.as_bytes()),
            Err(_) => {}
        }
    }
}
