//! All turns of the reader.

ghost use Rattle.std.specs.Prelude.{◌≡◌, ◌+◌, ◌≤◌, [], vec_len, vec_capacity};
ghost use Rattle.acq_core.specs.Receiver.{config_of, buffers, Stands};
ghost use Rattle.acq_core.specs.Waiting.{waiting_fills, waiting_requests};
ghost use Rattle.buffer_words.specs.Boards.{board_id};
ghost use Rattle.gev_control.specs.Ends.{is_fault_end};
ghost use Rattle.gev_acq.specs.Buffers.{Backs, HoldsAlone};
ghost use Rattle.gev_acq.specs.Reading.{FaultsOf};
ghost use Rattle.gev_acq.specs.Acquired.{Acquires, ended_by};

use crate::lent::Lent;
use crate::moments::HostMoments;
use crate::reader_turn::turn_once;
use crate::turn::Turn;
use acq_core::Acq;
use board_calls::Mode;
use buffer_words::{Board, Pass};
use control_client::Client;
use gev_control::{AcqEnd, TurnEnd};
use gev_links::{Clock, Gate, Link};
use gev_types::Peer;
use std::sync::Wait;

// The room of a receive, in bytes.
const RECEIVE_ROOM: usize = 9000;

/// How the reader ends with a turn that ended so, or None where the next turn may come.
fn ended(end: TurnEnd) -> Option<AcqEnd>
    ensures { result ≡ ended_by end }
{
    match end {
        TurnEnd::GoesOn => None,
        TurnEnd::Fault => Some(AcqEnd::Fault),
        TurnEnd::NoAnswer(req) => Some(AcqEnd::NoAnswer(req)),
        TurnEnd::Refused(status) => Some(AcqEnd::Refused(status)),
    }
}

/// The reader of a live run with one lane: makes at most `turns` turns, and sends what it has to send to the
/// peer `camera`.
///
/// A turn looks at the run word, and the reader ends where that isn't 1. It receives once on `stream`, reads
/// the clock once, gives the receiver the datagram that came and then the moment, fills what retires and
/// claims what is asked for, each by the mode. It sends the requests on `control`, receives there once, gives the client what
/// came, lets it tick and sends what it has to send. Each turn has its entry in the journal. After a receive
/// or a send that failed the turn sends and receives nothing more, and is the last one.
pub fn acquire<R: Wait, L: Link, M: Link, C: Clock, G: Gate>(
    rt: &R,
    board: &Board,
    pass: &mut Pass,
    acq: &mut Acq,
    client: &mut Client,
    stream: &mut L,
    control: &mut M,
    clock: &mut C,
    gate: &G,
    camera: Peer,
    journal: &mut Vec<Turn>,
    turns: u64,
    mode: Mode,
) -> AcqEnd
    requires table { pass.old.table ≡ board_id board.now }
    requires fills { waiting_fills acq.old ≡ [] }
    requires requests { waiting_requests acq.old ≡ [] }
    requires backs { Backs pass.old (buffers acq.old) }
    requires room { vec_len journal.old + turns ≤ vec_capacity journal.old }
    ensures acquires { Acquires mode (config_of acq.old) camera (Stands acq.old) (Stands acq.new)
        (record { received = L.received stream.old; heard = M.received control.old; sent = M.sent control.old; told = C.told clock.old; client = client.old })
        (record { received = L.received stream.new; heard = M.received control.new; sent = M.sent control.new; told = C.told clock.new; client = client.new })
        journal.old.items journal.new.items turns result pass.old pass.new }
    ensures faults { FaultsOf (is_fault_end result) (L.faults stream.old) (L.faults stream.new) (M.faults control.old) (M.faults control.new) }
    ensures table { pass.new.table ≡ pass.old.table }
    ensures config { config_of acq.new ≡ config_of acq.old }
    ensures fills { waiting_fills acq.new ≡ [] }
    ensures requests { waiting_requests acq.new ≡ [] }
    ensures backs { Backs pass.new (buffers acq.new) }
    ensures alone { HoldsAlone pass.old (buffers acq.old) → HoldsAlone pass.new (buffers acq.new) }
{
    let mut out = [0; RECEIVE_ROOM];
    let mut moments = HostMoments;
    for _turn in 0..turns {
        let run = board.look_run(pass);
        if run != 1 {
            return AcqEnd::Stopped;
        }
        let lent = Lent {
            client: &mut *client,
            stream: &mut *stream,
            control: &mut *control,
            clock: &mut *clock,
            out: &mut out,
            camera,
        };
        let (turn, end) = turn_once(rt, board, pass, acq, lent, gate, &mut moments, mode);
        journal.push_reserved(turn);
        match ended(end) {
            None => {}
            Some(last) => return last,
        }
    }
    AcqEnd::Spent
}
