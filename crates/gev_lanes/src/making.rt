//! New lanes.

ghost use Rattle.std.specs.Prelude.{◌≡◌, ◌+◌, length, IfOk};
ghost use Rattle.gev_lanes.specs.Sides.{CELLS as MANY, ROOM as WHOLE, AreFresh, IsNew};

use crate::cell::{Cell, CellKind};
use crate::ends::LaneEnds;
use crate::line::Line;
use crate::line_ends::Start;
use crate::parts::{LaneHands, LaneQueues, LaneStarts, ReaderLane};
use gev_types::{Bytes, NoMemory};
use std::alloc::{AllocError, Global};

// How many cells a lane has for datagrams and moments, and how many requests may wait.
const CELLS: usize = 64;

// How many cells its queues of cells have room for: these, and the one that is kept for the end.
const ROOM: usize = CELLS + 1;

// How many bytes a cell has room for.
const CELL_SIZE: usize = 9000;

// So many bytes.
fn zeros(alloc: Global, count: usize) -> Result<Vec<u8>, AllocError>
    ensures { IfOk result (λ bytes. length bytes.items ≡ count) }
{
    Vec::from_elem(alloc, 0, count)
}

fn new_cell(alloc: Global) -> Result<Cell, NoMemory> {
    let bytes = zeros(alloc, CELL_SIZE)?;
    Ok(Cell {
        moment: 0,
        kind: CellKind::Tick,
        bytes: Bytes::of(bytes),
    })
}

// Puts new cells into a queue before its ends part.
fn put_cells(alloc: Global, line: &Line<Cell>, start: &mut Start<Cell>) -> Result<(), NoMemory>
    requires { start.old.line ≡ line.now.table }
    ensures line { start.new.line ≡ start.old.line }
    ensures given { IfOk result (λ _. length start.new.given ≡ length start.old.given + MANY) }
{
    'cells: for _cell in 0..CELLS {
        let cell = new_cell(alloc)?;
        match line.put(start, cell) {
            Ok(()) => {}
            Err(_full) => return Err(NoMemory),
        }
    }
    Ok(())
}

// A queue with all free cells.
fn full_line(alloc: Global) -> Result<(Line<Cell>, Start<Cell>), NoMemory>
    ensures room { IfOk result (λ made. made.0.capacity ≡ WHOLE) }
    ensures line { IfOk result (λ made. made.1.line ≡ made.0.table) }
    ensures given { IfOk result (λ made. length made.1.given ≡ MANY) }
{
    let (line, mut start) = Line::new(alloc, ROOM)?;
    put_cells(alloc, &line, &mut start)?;
    Ok((line, start))
}

// The queues of a new lane.
fn new_queues(alloc: Global) -> Result<(LaneQueues, LaneStarts), NoMemory>
    ensures fresh { IfOk result (λ made. AreFresh made.0 made.1) }
{
    let (free, free_start) = full_line(alloc)?;
    let (cells, cells_start) = Line::new(alloc, ROOM)?;
    let (requests, requests_start) = Line::new(alloc, CELLS)?;
    Ok((
        LaneQueues {
            free,
            cells,
            requests,
        },
        LaneStarts {
            free: free_start,
            cells: cells_start,
            requests: requests_start,
        },
    ))
}

// The ends of a new lane's queues part.
fn part(queues: &LaneQueues, starts: LaneStarts, kept: Cell, number: u8) -> (ReaderLane, LaneEnds)
    requires fresh { AreFresh queues.now starts }
    ensures new { IsNew queues.now result.0 result.1 number }
{
    let (lane_free, reader_free) = queues.free.part(starts.free);
    let (reader_cells, lane_cells) = queues.cells.part(starts.cells);
    let (lane_requests, reader_requests) = queues.requests.part(starts.requests);
    let reader = ReaderLane {
        free: reader_free,
        cells: reader_cells,
        requests: reader_requests,
        kept: Some(kept),
        last: 0,
    };
    let hands = LaneHands {
        free: lane_free,
        cells: lane_cells,
        requests: lane_requests,
    };
    (reader, LaneEnds { number, hands })
}

/// A new lane with this number.
pub(crate) fn new_lane(
    alloc: Global,
    number: u8,
) -> Result<(LaneQueues, ReaderLane, LaneEnds), NoMemory>
    ensures new { IfOk result (λ made. IsNew made.0 made.1 made.2 number) }
{
    let kept = new_cell(alloc)?;
    let (queues, starts) = new_queues(alloc)?;
    let (reader, lane) = part(&queues, starts, kept, number);
    Ok((queues, reader, lane))
}
