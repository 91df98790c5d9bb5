//! One turn of the reader, after its look at the run word.

ghost use Rattle.std.specs.Prelude.{◌≡◌, []};
ghost use Rattle.acq_core.specs.Receiver.{config_of, buffers, Stands};
ghost use Rattle.acq_core.specs.Waiting.{waiting_fills, waiting_requests};
ghost use Rattle.buffer_words.specs.Boards.{board_id};
ghost use Rattle.gev_acq.specs.Buffers.{Backs, HoldsAlone};
ghost use Rattle.gev_control.specs.Controlled.{is_fault as is_turn_fault};
ghost use Rattle.gev_acq.specs.Reading.{FaultsOf};
ghost use Rattle.camera_reader.specs.Turns.{TakesOne};
ghost use Rattle.camera_reader.specs.Reading.{TakesCameraTurn, cause_faults};

use crate::asking::send_requests;
use crate::hearing::{bytes_of, has_failed, receive};
use crate::turn_state::TurnState;
use crate::words::ReaderWords;
use acq_core::Acq;
use buffer_words::{Board, Pass};
use camera_control::ControlEnd;
use first_leader::beat_cause;
use gev_acq::{Host, TurnEnd, serve_turn};
use gev_control::{client_turn, heartbeat_value};
use gev_links::{Clock, Gate, Link};
use std::sync::Wait;

/// What is known of a turn of the reader.
#[derive(Clone, Copy)]
pub(crate) struct Taken {
    /// Its moment, in milliseconds.
    pub(crate) moment: u64,
    /// Whether a datagram of the camera came, also one that widening refuses.
    pub(crate) came: bool,
}

/// One turn: it receives once on the stream's link and reads the clock once. The receiver is given what is heard, and then
/// the moment of its own clock. The requests that the moment brought are sent on the control link in the form of the
/// stream's identifiers, and the client has its part there, with the turn's own moment. After a receive or a send that
/// failed the turn sends and receives nothing more.
fn hear_once<R: Wait, L: Link, M: Link, C: Clock, G: Gate>(
    rt: &R,
    board: &Board,
    pass: &mut Pass,
    acq: &mut Acq,
    host: &mut Host<L, M, C>,
    gate: &G,
    state: &mut TurnState,
    words: ReaderWords,
) -> (Taken, TurnEnd)
    requires table { pass.old.table ≡ board_id board.now }
    requires fills { waiting_fills acq.old ≡ [] }
    requires requests { waiting_requests acq.old ≡ [] }
    requires backs { Backs pass.old (buffers acq.old) }
    ensures takes { TakesOne words.mode (config_of acq.old) words.ids words.camera (Stands acq.old) (Stands acq.new) state.old.clock state.new.clock
        state.old.hearing.widener state.old.hearing.refused state.new.hearing.widener state.new.hearing.refused
        (record { received = L.received host.old.stream; heard = M.received host.old.control; sent = M.sent host.old.control; told = C.told host.old.clock; client = host.old.client })
        (record { received = L.received host.new.stream; heard = M.received host.new.control; sent = M.sent host.new.control; told = C.told host.new.clock; client = host.new.client })
        result.0.moment result.0.came result.1 pass.old pass.new }
    ensures faults { FaultsOf (is_turn_fault result.1) (L.faults host.old.stream) (L.faults host.new.stream) (M.faults host.old.control) (M.faults host.new.control) }
    ensures table { pass.new.table ≡ pass.old.table }
    ensures config { config_of acq.new ≡ config_of acq.old }
    ensures fills { waiting_fills acq.new ≡ [] }
    ensures requests { waiting_requests acq.new ≡ [] }
    ensures backs { Backs pass.new (buffers acq.new) }
    ensures alone { HoldsAlone pass.old (buffers acq.old) → HoldsAlone pass.new (buffers acq.new) }
{
    let (received, came) = receive(&mut host.stream, words.ids, &mut state.hearing);
    let moment = host.clock.now();
    let told = state.clock.tell(moment, came);
    let lost = has_failed(&received);
    let bytes = bytes_of(received, &state.hearing.out);
    serve_turn(rt, board, pass, acq, gate, bytes, told, words.mode);
    let failed = send_requests(acq, &mut host.control, words.camera, words.ids, lost);
    let end = client_turn(
        &mut host.client,
        &mut host.control,
        words.camera,
        moment,
        failed,
        &mut state.hearing.out,
    );
    (Taken { moment, came }, end)
}

/// One turn, and how it ended control, if it did.
pub(crate) fn take_turn<R: Wait, L: Link, M: Link, C: Clock, G: Gate>(
    rt: &R,
    board: &Board,
    pass: &mut Pass,
    acq: &mut Acq,
    host: &mut Host<L, M, C>,
    gate: &G,
    state: &mut TurnState,
    words: ReaderWords,
) -> (Taken, Option<ControlEnd>)
    requires table { pass.old.table ≡ board_id board.now }
    requires fills { waiting_fills acq.old ≡ [] }
    requires requests { waiting_requests acq.old ≡ [] }
    requires backs { Backs pass.old (buffers acq.old) }
    ensures takes { TakesCameraTurn words.mode (config_of acq.old) words.ids words.camera (Stands acq.old) (Stands acq.new) state.old.clock state.new.clock
        state.old.hearing.widener state.old.hearing.refused state.new.hearing.widener state.new.hearing.refused
        (record { received = L.received host.old.stream; heard = M.received host.old.control; sent = M.sent host.old.control; told = C.told host.old.clock; client = host.old.client })
        (record { received = L.received host.new.stream; heard = M.received host.new.control; sent = M.sent host.new.control; told = C.told host.new.clock; client = host.new.client })
        result.0.moment result.0.came result.1 pass.old pass.new }
    ensures faults { FaultsOf (cause_faults result.1) (L.faults host.old.stream) (L.faults host.new.stream) (M.faults host.old.control) (M.faults host.new.control) }
    ensures table { pass.new.table ≡ pass.old.table }
    ensures config { config_of acq.new ≡ config_of acq.old }
    ensures fills { waiting_fills acq.new ≡ [] }
    ensures requests { waiting_requests acq.new ≡ [] }
    ensures backs { Backs pass.new (buffers acq.new) }
    ensures alone { HoldsAlone pass.old (buffers acq.old) → HoldsAlone pass.new (buffers acq.new) }
{
    let waited = !host.client.is_idle();
    let (turn, end) = hear_once(rt, board, pass, acq, host, gate, state, words);
    let cause = beat_cause(end, heartbeat_value(&host.client, waited));
    (turn, cause)
}
