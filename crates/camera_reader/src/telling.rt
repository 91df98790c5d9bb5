//! The moment before the first turn.

ghost use Rattle.std.specs.Prelude.{◌≡◌, [], false};
ghost use Rattle.acq_core.specs.Receiver.{config_of, buffers, Stands};
ghost use Rattle.acq_core.specs.Waiting.{waiting_fills, waiting_requests};
ghost use Rattle.buffer_words.specs.Boards.{board_id};
ghost use Rattle.gev_acq.specs.Buffers.{Backs, HoldsAlone};
ghost use Rattle.gev_control.specs.Sends.{Fails};
ghost use Rattle.camera_reader.specs.Beginning.{TellsBegin};

use crate::asking::send_requests;
use crate::words::ReaderWords;
use acq_core::Acq;
use buffer_words::{Board, Pass};
use gev_acq::serve_turn;
use gev_links::{Gate, Link};
use std::sync::Wait;

/// Tells the receiver the moment before the first turn, in milliseconds, and sends what it asks for then to the camera, in
/// the form of the stream's identifiers: whether a send failed. A receiver that heard no moment counts from 0, and the first
/// block would be old at once where the setup took long.
pub fn tell_begin<R: Wait, M: Link, G: Gate>(
    rt: &R,
    board: &Board,
    pass: &mut Pass,
    acq: &mut Acq,
    control: &mut M,
    gate: &G,
    words: ReaderWords,
    begin: u64,
) -> bool
    requires table { pass.old.table ≡ board_id board.now }
    requires fills { waiting_fills acq.old ≡ [] }
    requires requests { waiting_requests acq.old ≡ [] }
    requires backs { Backs pass.old (buffers acq.old) }
    ensures tells { TellsBegin words.mode (config_of acq.old) words.ids words.camera (Stands acq.old) (Stands acq.new) begin result (M.sent control.old) (M.sent control.new) pass.old pass.new }
    ensures fails { Fails false result (M.faults control.old) (M.faults control.new) }
    ensures received { M.received control.new ≡ M.received control.old }
    ensures table { pass.new.table ≡ pass.old.table }
    ensures config { config_of acq.new ≡ config_of acq.old }
    ensures fills { waiting_fills acq.new ≡ [] }
    ensures requests { waiting_requests acq.new ≡ [] }
    ensures backs { Backs pass.new (buffers acq.new) }
    ensures alone { HoldsAlone pass.old (buffers acq.old) → HoldsAlone pass.new (buffers acq.new) }
{
    serve_turn(rt, board, pass, acq, gate, None, begin, words.mode);
    send_requests(acq, control, words.camera, words.ids, false)
}
