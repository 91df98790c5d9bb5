ghost use Rattle.std.specs.Prelude.{◌≡◌, [], ◌∷◌, Some, option_map};
ghost use Rattle.acq_core.specs.Receiver.{config_of, buffers, Stands};
ghost use Rattle.acq_core.specs.Waiting.{waiting_fills, waiting_requests};
ghost use Rattle.buffer_words.specs.Boards.{board_id};
ghost use Rattle.gev_acq.specs.Buffers.{Backs, HoldsAlone};
ghost use Rattle.gev_acq.specs.Turning.{ReceivesIf, TicksOnce, ServesTurn};

use crate::filling::fill_all;
use crate::heard::Heard;
use crate::receiving::receive;
use acq_core::Acq;
use board_calls::Mode;
use buffer_words::{Board, Pass};
use gev_links::Gate;
use std::sync::Wait;

/// What a turn does to the receiver: it's given the datagram that came, if one did, and then the moment, in
/// milliseconds. What retires is filled, and a buffer that is asked for is claimed, each by the mode. The requests that the
/// moment brought wait in the receiver.
pub fn serve_turn<R: Wait, G: Gate>(
    rt: &R,
    board: &Board,
    pass: &mut Pass,
    acq: &mut Acq,
    gate: &G,
    came: Option<&[u8]>,
    moment: u64,
    mode: Mode,
) -> Heard
    requires table { pass.old.table ≡ board_id board.now }
    requires fills { waiting_fills acq.old ≡ [] }
    requires requests { waiting_requests acq.old ≡ [] }
    requires backs { Backs pass.old (buffers acq.old) }
    ensures serves { ServesTurn mode (config_of acq.old) (Stands acq.old) (Stands acq.new) (option_map (λ bytes. bytes.now) came.entry) moment result
        (waiting_requests acq.new) pass.old pass.new }
    ensures table { pass.new.table ≡ pass.old.table }
    ensures config { config_of acq.new ≡ config_of acq.old }
    ensures fills { waiting_fills acq.new ≡ [] }
    ensures backs { Backs pass.new (buffers acq.new) }
    ensures alone { HoldsAlone pass.old (buffers acq.old) → HoldsAlone pass.new (buffers acq.new) }
{
    let heard = receive_if(rt, board, pass, acq, gate, came, mode);
    tick_acquisition(rt, board, pass, acq, gate, moment, mode);
    heard
}

/// Gives the receiver the datagram that came, if one did.
fn receive_if<R: Wait, G: Gate>(
    rt: &R,
    board: &Board,
    pass: &mut Pass,
    acq: &mut Acq,
    gate: &G,
    came: Option<&[u8]>,
    mode: Mode,
) -> Heard
    requires table { pass.old.table ≡ board_id board.now }
    requires fills { waiting_fills acq.old ≡ [] }
    requires requests { waiting_requests acq.old ≡ [] }
    requires backs { Backs pass.old (buffers acq.old) }
    ensures receives { ReceivesIf mode (config_of acq.old) (Stands acq.old) (Stands acq.new) (option_map (λ bytes. bytes.now) came.entry) result pass.old pass.new }
    ensures table { pass.new.table ≡ pass.old.table }
    ensures config { config_of acq.new ≡ config_of acq.old }
    ensures fills { waiting_fills acq.new ≡ [] }
    ensures requests { waiting_requests acq.new ≡ [] }
    ensures backs { Backs pass.new (buffers acq.new) }
    ensures alone { HoldsAlone pass.old (buffers acq.old) → HoldsAlone pass.new (buffers acq.new) }
{
    match came {
        Some(bytes) => receive(rt, board, pass, acq, gate, bytes, mode),
        None => Heard {
            kept: false,
            opened: 0,
            claim: None,
        },
    }
}

/// Gives the receiver the moment, and fills what retires.
fn tick_acquisition<R: Wait, G: Gate>(
    rt: &R,
    board: &Board,
    pass: &mut Pass,
    acq: &mut Acq,
    gate: &G,
    moment: u64,
    mode: Mode,
)
    requires table { pass.old.table ≡ board_id board.now }
    requires fills { waiting_fills acq.old ≡ [] }
    requires requests { waiting_requests acq.old ≡ [] }
    requires backs { Backs pass.old (buffers acq.old) }
    ensures ticks { TicksOnce mode (config_of acq.old) (Stands acq.old) (Stands acq.new) moment (waiting_requests acq.new) pass.old pass.new }
    ensures table { pass.new.table ≡ pass.old.table }
    ensures config { config_of acq.new ≡ config_of acq.old }
    ensures fills { waiting_fills acq.new ≡ [] }
    ensures backs { Backs pass.new (buffers acq.new) }
    ensures alone { HoldsAlone pass.old (buffers acq.old) → HoldsAlone pass.new (buffers acq.new) }
{
    acq.tick(moment);
    fill_all(rt, board, pass, acq, gate, mode);
}
