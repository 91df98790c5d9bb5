//! The lanes come home: their passes are joined, and their ends meet the reader's.

ghost use Rattle.std.specs.Prelude.{◌≡◌};
ghost use Rattle.board_machine.specs.declared.events.Event.TheVariants.{Join};
ghost use Rattle.buffer_words.specs.Boards.{board_id};
ghost use Rattle.buffer_words.specs.Passes.{SameHands, Enters};
ghost use Rattle.buffer_words.specs.Several.{EntersEach};
ghost use Rattle.gev_lanes.specs.Sides.{AreReadersOf, MetAt};
ghost use Rattle.lane_crew.specs.Tools.{IsBack, AreBack, IsJoined, AreJoined, AreMet, joins_of};

use crate::lane_tools::LaneTools;
use crate::summing::with_counts;
use acquisition_machine::Counts;
use buffer_words::{Board, Pass};
use gev_lanes::{Lanes, ReaderEnds};

// One lane comes home: what it counted.
fn bring_one(
    board: &Board,
    pass: &mut Pass,
    lanes: &Lanes,
    reader: &mut ReaderEnds,
    tools: LaneTools,
) -> Counts
    requires table { pass.old.table ≡ board_id board.now }
    requires reader { AreReadersOf lanes.now reader.old }
    requires back { IsBack (board_id board.now) lanes.now tools }
    ensures enters { Enters pass.old (Join tools.pass.number) pass.new }
    ensures joined { IsJoined pass.new.seen tools }
    ensures met { MetAt reader.new tools.ends }
    ensures same { reader.new ≡ reader.old }
    ensures hands { SameHands pass.old pass.new }
{
    let LaneTools {
        pass: worked,
        ends,
        acq,
    } = tools;
    board.join(pass, worked);
    lanes.meet(reader, ends);
    acq.counts()
}

/// All lanes come home, the last one first: what they counted.
pub(crate) fn bring_home(
    board: &Board,
    pass: &mut Pass,
    lanes: &Lanes,
    reader: &mut ReaderEnds,
    mut tools: Vec<LaneTools>,
) -> Counts
    requires table { pass.old.table ≡ board_id board.now }
    requires reader { AreReadersOf lanes.now reader.old }
    requires back { AreBack (board_id board.now) lanes.now tools.items }
    ensures enters { EntersEach pass.old (joins_of tools.items) pass.new }
    ensures joined { AreJoined pass.new.seen tools.items }
    ensures met { AreMet reader.new tools.items }
    ensures same { reader.new ≡ reader.old }
    ensures hands { SameHands pass.old pass.new }
{
    let mut counts = Counts::default();
    'lanes: while let Some(lane) = tools.pop() {
        let counted = bring_one(board, pass, lanes, reader, lane);
        counts = with_counts(counts, counted);
    }
    counts
}
