//! One cell.

ghost use Rattle.std.specs.Prelude.{◌≡◌, [], option_map};
ghost use Rattle.acq_core.specs.Receiver.{config_of, buffers, Stands};
ghost use Rattle.acq_core.specs.Waiting.{waiting_fills, waiting_requests};
ghost use Rattle.buffer_words.specs.Boards.{board_id};
ghost use Rattle.gev_acq.specs.Buffers.{Backs, HoldsAlone};
ghost use Rattle.gev_lanes.specs.Messages.{says_of, message_of};
ghost use Rattle.lane_crew.specs.Cells.{came_in, is_end as says_end, ServesCell};

use acq_core::Acq;
use board_calls::Mode;
use buffer_words::{Board, Pass};
use gev_acq::serve_turn;
use gev_lanes::{Cell, CellKind};
use gev_links::Gate;
use std::sync::Wait;

/// Whether the reader has ended.
pub(crate) fn is_end(cell: &Cell) -> bool
    ensures { result ≡ says_end (says_of cell.now.kind cell.now.bytes) }
{
    match cell.kind {
        CellKind::Datagram(_) => false,
        CellKind::Tick => false,
        CellKind::End => true,
    }
}

// The datagram that a cell brings.
fn datagram_of(cell: &Cell) -> Option<&[u8]>
    ensures { option_map (λ bytes. bytes.now) result ≡ came_in (says_of cell.now.kind cell.now.bytes) }
{
    match cell.kind {
        CellKind::Datagram(count) => {
            let bytes = cell.bytes.as_slice();
            Some(&bytes[..bytes.len().min(count as usize)])
        }
        CellKind::Tick => None,
        CellKind::End => None,
    }
}

/// Gives the receiver the datagram that the cell brings, if it brings one, and then its moment, as the reader of a
/// live run with one lane does.
pub(crate) fn serve_cell<R: Wait, G: Gate>(
    rt: &R,
    board: &Board,
    pass: &mut Pass,
    acq: &mut Acq,
    gate: &G,
    cell: &Cell,
    mode: Mode,
)
    requires table { pass.old.table ≡ board_id board.now }
    requires fills { waiting_fills acq.old ≡ [] }
    requires requests { waiting_requests acq.old ≡ [] }
    requires backs { Backs pass.old (buffers acq.old) }
    ensures serves { ServesCell mode (config_of acq.old) (Stands acq.old) (Stands acq.new) (message_of cell.now) (waiting_requests acq.new) pass.old pass.new }
    ensures table { pass.new.table ≡ pass.old.table }
    ensures config { config_of acq.new ≡ config_of acq.old }
    ensures fills { waiting_fills acq.new ≡ [] }
    ensures backs { Backs pass.new (buffers acq.new) }
    ensures alone { HoldsAlone pass.old (buffers acq.old) → HoldsAlone pass.new (buffers acq.new) }
{
    let came = datagram_of(cell);
    serve_turn(rt, board, pass, acq, gate, came, cell.moment, mode);
}
