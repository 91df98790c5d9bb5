//! The turns.

ghost use Rattle.std.specs.Prelude.{◌≡◌, []};
ghost use Rattle.acq_core.specs.Receiver.{config_of, buffers, Stands};
ghost use Rattle.acq_core.specs.Waiting.{waiting_fills, waiting_requests};
ghost use Rattle.buffer_words.specs.Boards.{board_id};
ghost use Rattle.gev_acq.specs.Buffers.{Backs, HoldsAlone};
ghost use Rattle.gev_acq.specs.Reading.{FaultsOf};
ghost use Rattle.camera_reader.specs.Reading.{ReadsTurns, is_fault};

use crate::listening::{Listening, is_silent, listened};
use crate::reader_end::ReaderEnd;
use crate::taking::take_turn;
use crate::turn_state::TurnState;
use crate::turns_done::TurnsDone;
use crate::words::ReaderWords;
use acq_core::Acq;
use buffer_words::{Board, Pass};
use first_leader::Pace;
use gev_acq::Host;
use gev_links::{Clock, Gate, Link};
use std::sync::Wait;

/// The reader of a camera's stream: makes turns until the run word isn't 1. `begin` is the moment that the receiver was told
/// before the first turn, in milliseconds.
///
/// A turn looks at the run word, and the reader ends where that isn't 1. A turn receives once on the stream's link, and the
/// receiver is given what came, a datagram with standard identifiers in its wide form, and the moment of its own clock. On
/// the control link its requests are sent in the form of the stream's identifiers, and the client has its part there, with
/// the moment of the host's clock. The reader ends where control does: a receive or a send failed, a heartbeat had no answer,
/// was refused, or told that control was lost. It ends too where no datagram came for `silence` milliseconds, not even one
/// that widening refuses; a turn whose moment is further behind the one before it ends nothing by that, and the next one
/// decides.
pub fn read_camera<R: Wait, L: Link, M: Link, C: Clock, G: Gate>(
    rt: &R,
    board: &Board,
    pass: &mut Pass,
    acq: &mut Acq,
    host: &mut Host<L, M, C>,
    gate: &G,
    words: ReaderWords,
    begin: u64,
) -> TurnsDone
    requires table { pass.old.table ≡ board_id board.now }
    requires fills { waiting_fills acq.old ≡ [] }
    requires requests { waiting_requests acq.old ≡ [] }
    requires backs { Backs pass.old (buffers acq.old) }
    ensures reads { ReadsTurns words.mode (config_of acq.old) words.ids words.camera words.silence begin (Stands acq.old) (Stands acq.new)
        (record { received = L.received host.old.stream; heard = M.received host.old.control; sent = M.sent host.old.control; told = C.told host.old.clock; client = host.old.client })
        (record { received = L.received host.new.stream; heard = M.received host.new.control; sent = M.sent host.new.control; told = C.told host.new.clock; client = host.new.client })
        result.refused pass.old pass.new result.end }
    ensures faults { FaultsOf (is_fault result.end) (L.faults host.old.stream) (L.faults host.new.stream) (M.faults host.old.control) (M.faults host.new.control) }
    ensures table { pass.new.table ≡ pass.old.table }
    ensures config { config_of acq.new ≡ config_of acq.old }
    ensures fills { waiting_fills acq.new ≡ [] }
    ensures requests { waiting_requests acq.new ≡ [] }
    ensures backs { Backs pass.new (buffers acq.new) }
    ensures alone { HoldsAlone pass.old (buffers acq.old) → HoldsAlone pass.new (buffers acq.new) }
{
    let mut state = TurnState::new(begin);
    let mut listening = Listening {
        heard: begin,
        pace: Pace {
            last: begin,
            spared: false,
        },
    };
    'turns: for _ in rt.forever() {
        let run = board.look_run(pass);
        if run != 1 {
            return TurnsDone {
                end: ReaderEnd::Stopped,
                refused: state.hearing.refused,
            };
        }
        let (turn, ended) = take_turn(rt, board, pass, acq, host, gate, &mut state, words);
        match ended {
            Some(cause) => {
                return TurnsDone {
                    end: ReaderEnd::Ended(cause),
                    refused: state.hearing.refused,
                };
            }
            None => {}
        }
        if is_silent(words.silence, listening, turn.moment, turn.came) {
            return TurnsDone {
                end: ReaderEnd::Silent,
                refused: state.hearing.refused,
            };
        }
        listening = listened(words.silence, listening, turn.moment, turn.came);
    }
    unreachable!()
}
