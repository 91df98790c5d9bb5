//! Buffers that the receiver gives back, and requests that it makes.

ghost use Rattle.std.specs.Prelude.{◌≡◌, ◌++◌, [], map, OnOk, IsSome, Some, None, if◌then◌else◌};
ghost use Rattle.board_machine.specs.Machine.{IsActor};
ghost use Rattle.acquisition_machine.specs.TurnLaws.{given_of};
ghost use Rattle.acq_core.specs.Receiver.{asked_block, buffers, KeepsBlocks};
ghost use Rattle.acq_core.specs.Waiting.{waiting_fills, waiting_requests};
ghost use Rattle.script_trace.specs.Trace.{acquirer};
ghost use Rattle.script_replay.specs.Boards.{IsReady};
ghost use Rattle.script_replay.specs.Counting.{with_fill, with_dropped, counted_claim};
ghost use Rattle.script_replay.specs.Acquiring.{IsAway, AreAway, FillsAll, Claims, lines_of};
ghost use Rattle.script_replay.specs.Telling.{TellsOne, TellsClaim};

use crate::fill_counts::FillCounts;
use crate::got::Got;
use acq_core::{Acq, Retired};
use arrayvec::ArrayVec;
use board_calls::FillEnd;
use board_model::{Gone, Mode, PlainBoard, plain_claim_for, plain_fill_for};
use gev_report::line_request;
use gev_types::NoMemory;
use std::alloc::Global;

/// Who claims, fills and lays for the acquisition.
pub(crate) const ACQUIRER: u8 = 5;

/// Counts a buffer that was filled into the output.
fn count_fill(counts: &mut FillCounts, complete: bool)
    ensures { counts.new ≡ with_fill counts.old complete }
{
    counts.fills = counts.fills.saturating_add(1);
    if complete {
        counts.complete = counts.complete.saturating_add(1);
    }
}

/// Counts buffers that were dropped.
fn count_dropped(counts: &mut FillCounts, dropped: u8)
    ensures { counts.new ≡ with_dropped counts.old dropped }
{
    if dropped != 0 {
        counts.dropped = counts.dropped.saturating_add(u64::from(dropped));
    }
}

/// Counts a claimed place, where it was dropped for the claim.
fn count_claimed(counts: &mut FillCounts, was_dropped: bool)
    ensures { counts.new ≡ counted_claim counts.old was_dropped }
{
    if was_dropped {
        count_dropped(counts, 1);
    }
}

/// Fills a buffer into the output by the mode and counts it, or lays it where the stream was closed. The
/// answer is whether it was filled, and `gone` gets what was dropped before it.
pub fn fill_one(
    board: &mut PlainBoard,
    counts: &mut FillCounts,
    mode: Mode,
    fill: Retired,
    gone: &mut ArrayVec<Gone, 15>,
) -> bool
    requires actor { IsActor board.old.board acquirer }
    requires away { IsAway board.old (given_of fill) }
    requires none { gone.old.items ≡ [] }
    ensures { TellsOne mode fill board.old counts.old board.new counts.new result gone.new.items }
{
    let place = fill.place;
    let complete = fill.buf.rec().complete;
    let (end, dropped) = plain_fill_for(board, ACQUIRER, mode, place, fill.buf, gone);
    count_dropped(counts, dropped);
    match end {
        FillEnd::Filled => {
            count_fill(counts, complete);
            true
        }
        FillEnd::Closed(back) => {
            board.set_down(ACQUIRER, place, back);
            board.lay(ACQUIRER, place);
            false
        }
    }
}

/// Fills each buffer that waits in the receiver, first in first, and counts those that came into the output
/// and those that were dropped before.
pub fn fill_retired(board: &mut PlainBoard, acq: &mut Acq, counts: &mut FillCounts, mode: Mode)
    requires actor { IsActor board.old.board acquirer }
    requires away { AreAway board.old (map given_of (waiting_fills acq.old) ++ buffers acq.old) }
    ensures fills { FillsAll mode (waiting_fills acq.old) board.old counts.old board.new counts.new }
    ensures no_fill { waiting_fills acq.new ≡ [] }
    ensures requests { waiting_requests acq.new ≡ waiting_requests acq.old }
    ensures rest { KeepsBlocks acq.old acq.new }
    ensures away { AreAway board.new (buffers acq.new) }
{
    while let Some(fill) = acq.next_fill() {
        let mut gone = ArrayVec::new();
        let _filled = fill_one(board, counts, mode, fill, &mut gone);
    }
}

/// Adds the line of each request that waits in the receiver, first in first.
pub(crate) fn write_requests(
    alloc: Global,
    acq: &mut Acq,
    out: &mut Vec<u8>,
) -> Result<(), NoMemory>
    ensures lines { OnOk result (out.new.items ≡ out.old.items ++ lines_of (waiting_requests acq.old)) }
    ensures no_request { OnOk result (waiting_requests acq.new ≡ []) }
    ensures fills { waiting_fills acq.new ≡ waiting_fills acq.old }
    ensures rest { KeepsBlocks acq.old acq.new }
{
    while let Some(bytes) = acq.next_request() {
        line_request(alloc, &bytes, out)?;
    }
    Ok(())
}

/// The block of a claimed place's record, where its image was dropped for the claim.
fn dropped_block(was_dropped: bool, block: u64) -> Option<u64>
    ensures { result ≡ (if was_dropped then Some block else None) }
{
    if was_dropped { Some(block) } else { None }
}

/// Claims a place by the mode, lifts its buffer out, and gives it to the receiver; where there is none, the
/// receiver is told so. A place that was dropped for this is counted. The answer is what was claimed.
pub fn give_claimed(
    board: &mut PlainBoard,
    acq: &mut Acq,
    counts: &mut FillCounts,
    mode: Mode,
) -> Option<Got>
    requires ready { IsReady board.old }
    requires asked { IsSome (asked_block acq.old) }
    requires away { AreAway board.old (buffers acq.old) }
    ensures claims { Claims mode board.old acq.old counts.old board.new acq.new counts.new }
    ensures told { TellsClaim result mode board.old acq.old counts.old board.new acq.new counts.new }
    ensures ready { IsReady board.new }
    ensures fills { waiting_fills acq.new ≡ waiting_fills acq.old }
    ensures requests { waiting_requests acq.new ≡ waiting_requests acq.old }
    ensures away { AreAway board.new (buffers acq.new) }
{
    match plain_claim_for(board, ACQUIRER, mode) {
        Some((place, was_dropped)) => {
            count_claimed(counts, was_dropped);
            let buf = board.lift(ACQUIRER, place);
            let dropped = dropped_block(was_dropped, buf.rec().block);
            acq.give(Some((place, buf)));
            Some(Got { place, dropped })
        }
        None => {
            acq.give(None);
            None
        }
    }
}
