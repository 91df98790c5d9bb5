//! What arrives on the link of a camera's stream, and what is heard of it.

ghost use Rattle.std.specs.Prelude.{◌≡◌, ◌≤◌, length, IfOk, IfSome, OnErr, option_map};
ghost use Rattle.gev_links.specs.Faults.{Rose};
ghost use Rattle.gev_links.specs.Links.{answer_of};
ghost use Rattle.packet_requests.specs.declared.id_mode.IdMode.TheVariants.{Standard, Extended};
ghost use Rattle.gev_acq.specs.Reading.{is_lost, has_come as comes};
ghost use Rattle.gev_acq.specs.Turns.{bytes_in};
ghost use Rattle.camera_reader.specs.Hearing.{HearsOnce};

use gev_links::{Failed, Link};
use gev_types::Peer;
use gvsp_std::Widener;
use link_filters::hear;
use packet_requests::IdMode;

/// The room of a receive, in bytes.
const ROOM: usize = 9000;

/// The room for a datagram that was widened, in bytes.
const WIDE_ROOM: usize = ROOM + 12;

/// What is kept of a stream from one receive to the next.
#[derive(Drop)]
pub(crate) struct Hearing {
    /// Gives datagrams with standard identifiers extended ones.
    pub(crate) widener: Widener,
    /// How many datagrams were refused in that. The count stands still at its greatest value.
    pub(crate) refused: u64,
    /// What came with standard identifiers.
    came: [u8; ROOM],
    /// Its wide form.
    wide: [u8; WIDE_ROOM],
    /// What is heard.
    pub(crate) out: [u8; ROOM],
}

impl Hearing {
    /// Before the first receive.
    pub(crate) fn new() -> Hearing
        ensures top { result.widener ≡ 0 }
        ensures refused { result.refused ≡ 0 }
    {
        Hearing {
            widener: Widener::new(),
            refused: 0,
            came: [0; ROOM],
            wide: [0; WIDE_ROOM],
            out: [0; ROOM],
        }
    }
}

/// Whether the receive failed.
pub(crate) fn has_failed(received: &Result<Option<(usize, Peer)>, Failed>) -> bool
    ensures { result ≡ is_lost received.now }
{
    match received {
        Ok(_) => false,
        Err(_) => true,
    }
}

/// Whether a datagram came.
fn has_come(received: &Result<Option<(usize, Peer)>, Failed>) -> bool
    ensures { result ≡ comes received.now }
{
    match received {
        Ok(came) => came.is_some(),
        Err(_) => false,
    }
}

/// The bytes that came, by the answer of a receive into `out`.
pub(crate) fn bytes_of(received: Result<Option<(usize, Peer)>, Failed>, out: &[u8]) -> Option<&[u8]>
    requires count { IfOk received (λ came. IfSome came (λ datagram. datagram.0 ≤ length out.now)) }
    ensures { option_map (λ bytes. bytes.now) result ≡ bytes_in (answer_of received out.now) }
{
    match received {
        Ok(came) => match came {
            Some((count, _)) => Some(&out[..count]),
            None => None,
        },
        Err(_) => None,
    }
}

/// A receive from a stream with standard identifiers.
fn receive_standard<L: Link>(
    stream: &mut L,
    hearing: &mut Hearing,
) -> (Result<Option<(usize, Peer)>, Failed>, bool)
    ensures hears { HearsOnce Standard hearing.old.widener hearing.old.refused hearing.new.widener hearing.new.refused
        (L.received stream.old) (L.received stream.new) (answer_of result.0 hearing.new.out) result.1 }
    ensures count { IfOk result.0 (λ came. IfSome came (λ datagram. datagram.0 ≤ length hearing.new.out)) }
    ensures no_fault { IfOk result.0 (λ _. L.faults stream.new ≡ L.faults stream.old) }
    ensures failed { OnErr result.0 (Rose (L.faults stream.old) (L.faults stream.new)) }
{
    let _refused = hearing.refused;
    match stream.recv(&mut hearing.came) {
        Ok(came) => {
            let heard = hear(
                came,
                &hearing.came,
                &mut hearing.widener,
                &mut hearing.refused,
                &mut hearing.wide,
                &mut hearing.out,
            );
            (Ok(heard), came.is_some())
        }
        Err(failed) => (Err(failed), false),
    }
}

/// A receive from a stream with extended identifiers.
fn receive_extended<L: Link>(
    stream: &mut L,
    hearing: &mut Hearing,
) -> (Result<Option<(usize, Peer)>, Failed>, bool)
    ensures hears { HearsOnce Extended hearing.old.widener hearing.old.refused hearing.new.widener hearing.new.refused
        (L.received stream.old) (L.received stream.new) (answer_of result.0 hearing.new.out) result.1 }
    ensures count { IfOk result.0 (λ came. IfSome came (λ datagram. datagram.0 ≤ length hearing.new.out)) }
    ensures no_fault { IfOk result.0 (λ _. L.faults stream.new ≡ L.faults stream.old) }
    ensures failed { OnErr result.0 (Rose (L.faults stream.old) (L.faults stream.new)) }
{
    let _refused = hearing.refused;
    let received = stream.recv(&mut hearing.out);
    let came = has_come(&received);
    (received, came)
}

/// Receives once: the answer, by what is heard in the front of `out`, and whether a datagram came, also one that widening
/// refuses.
pub(crate) fn receive<L: Link>(
    stream: &mut L,
    ids: IdMode,
    hearing: &mut Hearing,
) -> (Result<Option<(usize, Peer)>, Failed>, bool)
    ensures hears { HearsOnce ids hearing.old.widener hearing.old.refused hearing.new.widener hearing.new.refused
        (L.received stream.old) (L.received stream.new) (answer_of result.0 hearing.new.out) result.1 }
    ensures count { IfOk result.0 (λ came. IfSome came (λ datagram. datagram.0 ≤ length hearing.new.out)) }
    ensures no_fault { IfOk result.0 (λ _. L.faults stream.new ≡ L.faults stream.old) }
    ensures failed { OnErr result.0 (Rose (L.faults stream.old) (L.faults stream.new)) }
{
    match ids {
        IdMode::Standard => receive_standard(stream, hearing),
        IdMode::Extended => receive_extended(stream, hearing),
    }
}
