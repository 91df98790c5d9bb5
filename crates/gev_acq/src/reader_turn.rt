//! One turn of the reader, after its look at the run word.

ghost use Rattle.std.specs.Prelude.{◌≡◌, ◌≤◌, [], length, IfOk, IfSome, option_map};
ghost use Rattle.acq_core.specs.Receiver.{config_of, buffers, Stands};
ghost use Rattle.acq_core.specs.Waiting.{waiting_fills, waiting_requests};
ghost use Rattle.buffer_words.specs.Boards.{board_id};
ghost use Rattle.gev_links.specs.Links.{answer_of, receive_room};
ghost use Rattle.gev_acq.specs.Buffers.{Backs, HoldsAlone};
ghost use Rattle.gev_control.specs.Controlled.{is_fault};
ghost use Rattle.gev_acq.specs.Reading.{is_lost, has_come as comes, FaultsOf};
ghost use Rattle.gev_acq.specs.Turns.{bytes_in, TakesOne};

use crate::lent::Lent;
use crate::moments::Moments;
use crate::sending::send_requests;
use crate::turn::Turn;
use crate::turning::serve_turn;
use acq_core::Acq;
use board_calls::Mode;
use buffer_words::{Board, Pass};
use gev_control::{TurnEnd, client_turn};
use gev_links::{Clock, Failed, Gate, Link};
use gev_types::Peer;
use std::sync::Wait;

/// Whether the receive failed.
fn has_failed(received: &Result<Option<(usize, Peer)>, Failed>) -> bool
    ensures { result ≡ is_lost received.now }
{
    match received {
        Ok(_) => false,
        Err(_) => true,
    }
}

/// Whether a datagram came.
fn has_come(received: &Result<Option<(usize, Peer)>, Failed>) -> bool
    ensures { result ≡ comes received.now }
{
    match received {
        Ok(came) => came.is_some(),
        Err(_) => false,
    }
}

/// The bytes that came, by the answer of a receive into `out`.
fn bytes_of(received: Result<Option<(usize, Peer)>, Failed>, out: &[u8]) -> Option<&[u8]>
    requires count { IfOk received (λ came. IfSome came (λ datagram. datagram.0 ≤ length out.now)) }
    ensures { option_map (λ bytes. bytes.now) result ≡ bytes_in (answer_of received out.now) }
{
    match received {
        Ok(came) => match came {
            Some((count, _)) => Some(&out[..count]),
            None => None,
        },
        Err(_) => None,
    }
}

/// One turn of the reader: its entry for the journal, and how it ended.
///
/// It receives once on the link of the stream and reads the clock once: the turn's moment, in milliseconds. The receiver is
/// given the datagram that came, if one did, and then the moment that `moments` says, and is served by the mode. The requests
/// that the moment brought are sent on the control link, and the client has its part there, with the turn's own moment. After
/// a receive or a send that failed the turn sends and receives nothing more.
pub fn turn_once<R: Wait, L: Link, M: Link, C: Clock, G: Gate, P: Moments>(
    rt: &R,
    board: &Board,
    pass: &mut Pass,
    acq: &mut Acq,
    lent: Lent<'_, L, M, C>,
    gate: &G,
    moments: &mut P,
    mode: Mode,
) -> (Turn, TurnEnd)
    requires table { pass.old.table ≡ board_id board.now }
    requires fills { waiting_fills acq.old ≡ [] }
    requires requests { waiting_requests acq.old ≡ [] }
    requires backs { Backs pass.old (buffers acq.old) }
    requires room { length lent.out.now ≡ receive_room }
    ensures takes { TakesOne mode (config_of acq.old) lent.entry.camera (Stands acq.old) (Stands acq.new) (λ moment told. P.says moments.old moment told moments.new)
        (record { received = L.received lent.entry.stream.now; heard = M.received lent.entry.control.now; sent = M.sent lent.entry.control.now; told = C.told lent.entry.clock.now; client = lent.entry.client.now })
        (record { received = L.received lent.exit.1.0.now; heard = M.received lent.exit.1.1.0.now; sent = M.sent lent.exit.1.1.0.now; told = C.told lent.exit.1.1.1.0.now; client = lent.exit.0.now })
        result.0 result.1 pass.old pass.new }
    ensures faults { FaultsOf (is_fault result.1) (L.faults lent.entry.stream.now) (L.faults lent.exit.1.0.now) (M.faults lent.entry.control.now) (M.faults lent.exit.1.1.0.now) }
    ensures table { pass.new.table ≡ pass.old.table }
    ensures config { config_of acq.new ≡ config_of acq.old }
    ensures fills { waiting_fills acq.new ≡ [] }
    ensures requests { waiting_requests acq.new ≡ [] }
    ensures backs { Backs pass.new (buffers acq.new) }
    ensures alone { HoldsAlone pass.old (buffers acq.old) → HoldsAlone pass.new (buffers acq.new) }
{
    let Lent {
        client,
        stream,
        control,
        clock,
        out,
        camera,
    } = lent;
    let received = stream.recv(out);
    let moment = clock.now();
    let told = moments.tell(moment);
    let lost = has_failed(&received);
    let datagram = has_come(&received);
    let bytes = bytes_of(received, out);
    let heard = serve_turn(rt, board, pass, acq, gate, bytes, told, mode);
    let failed = send_requests(acq, control, camera, lost);
    let end = client_turn(client, control, camera, moment, failed, out);
    let turn = Turn {
        moment,
        datagram,
        kept: heard.kept,
        opened: heard.opened,
        claim: heard.claim,
    };
    (turn, end)
}
