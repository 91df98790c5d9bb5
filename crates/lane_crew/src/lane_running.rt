//! All cells of a lane.

ghost use Rattle.std.specs.Prelude.{◌≡◌, []};
ghost use Rattle.acq_core.specs.Receiver.{config_of, buffers, Stands};
ghost use Rattle.acq_core.specs.Waiting.{waiting_fills, waiting_requests};
ghost use Rattle.buffer_words.specs.Boards.{board_id};
ghost use Rattle.buffer_words.specs.Passes.{IsEmptyHanded};
ghost use Rattle.gev_acq.specs.Buffers.{Backs, HoldsAlone};
ghost use Rattle.gev_lanes.specs.Sides.{IsLaneAt};
ghost use Rattle.lane_crew.specs.Lane.{ServesCells};

use crate::cell_serving::{is_end, serve_cell};
use crate::putting::put_requests;
use acq_core::Acq;
use board_calls::Mode;
use buffer_words::{Board, Pass};
use gev_acq::retire_all;
use gev_lanes::{LaneEnds, Lanes};
use gev_links::Gate;
use std::sync::Wait;

/// A lane of a live run: it takes the cells that the reader gives it, up to the end.
///
/// It gives its receiver the datagram that a cell brings and then the cell's moment, in milliseconds, fills what
/// retires and claims what is asked for, both as the buffer handling mode says. It gives the cell back before it takes
/// the next, and gives the receiver's requests to the reader; one that finds 64 waiting is left out. At the end all
/// open blocks retire. It passes gate point 1 before each fill and its drops, and takes no memory.
pub fn lane<R: Wait, G: Gate>(
    rt: &R,
    board: &Board,
    pass: &mut Pass,
    lanes: &Lanes,
    ends: &mut LaneEnds,
    acq: &mut Acq,
    gate: &G,
    mode: Mode,
)
    requires table { pass.old.table ≡ board_id board.now }
    requires lane { IsLaneAt lanes.now ends.old }
    requires fills { waiting_fills acq.old ≡ [] }
    requires requests { waiting_requests acq.old ≡ [] }
    requires backs { Backs pass.old (buffers acq.old) }
    ensures serves { ServesCells mode (config_of acq.old) (Stands acq.old) (Stands acq.new) ends.old ends.new pass.old pass.new }
    ensures lane { IsLaneAt lanes.now ends.new }
    ensures table { pass.new.table ≡ pass.old.table }
    ensures config { config_of acq.new ≡ config_of acq.old }
    ensures fills { waiting_fills acq.new ≡ [] }
    ensures requests { waiting_requests acq.new ≡ [] }
    ensures buffers { buffers acq.new ≡ [] }
    ensures empty { HoldsAlone pass.old (buffers acq.old) → IsEmptyHanded pass.new }
{
    'cells: for _ in rt.forever() {
        let cell = lanes.next_cell(rt, ends);
        if is_end(&cell) {
            lanes.free_cell(rt, ends, cell);
            retire_all(rt, board, pass, acq, gate, mode);
            return;
        }
        serve_cell(rt, board, pass, acq, gate, &cell, mode);
        lanes.free_cell(rt, ends, cell);
        put_requests(rt, lanes, ends, acq);
    }
    unreachable!()
}
