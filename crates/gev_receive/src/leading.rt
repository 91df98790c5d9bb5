//! The first leader, waited for.

ghost use Rattle.std.specs.Prelude.{◌≡◌};
ghost use Rattle.first_leader.specs.Waiting.{AwaitsLeader, InputOf, FaultsOf, is_fault};

use crate::noticing::{Foreign, Noticing, foreign_line};
use camera_words::Settings;
use first_leader::{FirstLeader, NoLeader, Patience, await_leader};
use gev_acq::Host;
use gev_far::PeekLink;
use gev_links::{Clock, Sink, Source};
use gev_types::Peer;
use std::alloc::Global;
use std::sync::Wait;

// Tells which datagram came last that is no packet, where the camera was silent. Where memory is wanting for the line
// it's left out.
fn tell_foreign<K: Sink>(
    alloc: Global,
    sink: &mut K,
    found: &Result<FirstLeader, NoLeader>,
    last: Option<Foreign>,
)
    ensures written { K.written sink.new ≡ K.written sink.old }
    ensures faults { K.faults sink.new ≡ K.faults sink.old }
{
    match found {
        Err(NoLeader::Silent) => {}
        _ => return,
    }
    if let Some(foreign) = last {
        match foreign_line(alloc, foreign) {
            Ok(line) => sink.tell(line.as_bytes()),
            Err(_) => {}
        }
    }
}

/// Waits for the first leader of the camera's stream, which stays in its link.
pub(crate) fn find_leader<
    R: Wait,
    S: PeekLink + Drop,
    M: PeekLink + Drop,
    C: Clock + Drop,
    K: Sink,
    I: Source,
>(
    rt: &R,
    alloc: Global,
    settings: &Settings,
    camera: Peer,
    packet_size: u16,
    host: Host<S, M, C>,
    sink: &mut K,
    input: &mut I,
) -> (Host<S, M, C>, Result<FirstLeader, NoLeader>)
    ensures awaits { AwaitsLeader camera (record { packet_size = packet_size; silence = settings.now.silence; until_input = settings.now.until_input_ends })
        (record { received = S.received host.stream; heard = M.received host.control; sent = M.sent host.control; told = C.told host.clock; client = host.client })
        (record { received = S.received result.0.stream; heard = M.received result.0.control; sent = M.sent result.0.control; told = C.told result.0.clock; client = result.0.client })
        result.1 }
    ensures input { InputOf result.1 (I.left input.new) }
    ensures faults { FaultsOf (is_fault result.1) (S.faults host.stream) (S.faults result.0.stream) (M.faults host.control) (M.faults result.0.control) }
    ensures written { K.written sink.new ≡ K.written sink.old }
    ensures write_faults { K.faults sink.new ≡ K.faults sink.old }
{
    let patience = Patience {
        packet_size,
        silence: u64::from(settings.silence),
        until_input: settings.until_input_ends,
    };
    let Host {
        mut client,
        stream,
        mut control,
        mut clock,
    } = host;
    control.set_waiting(false);
    let mut stream = Noticing::new(stream);
    let found = await_leader(
        rt,
        &mut client,
        &mut stream,
        &mut control,
        &mut clock,
        input,
        camera,
        patience,
    );
    let (stream, last) = stream.apart();
    tell_foreign(alloc, sink, &found, last);
    let host = Host {
        client,
        stream,
        control,
        clock,
    };
    (host, found)
}
