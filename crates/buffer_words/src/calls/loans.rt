//! The calls that lend a buffer and take it back.
ghost use Rattle.std.specs.Prelude.{◌≡◌, ◌<◌};
ghost use Rattle.gev_types.specs.Limits.{place_count};
ghost use Rattle.board_machine.specs.Machine.{word_at};
ghost use Rattle.board_machine.specs.Histories.{Run, After};
ghost use Rattle.buffer_words.specs.Boards.{board_id};
ghost use Rattle.buffer_words.specs.Passes.{lifted, down, IsDown, IsWhole, GrowsTo, Stays, SameHands, Has};
ghost use Rattle.buffer_words.specs.Loans.{IsLoanOf};

use crate::codes::word_of;
use crate::loan::Loan;
use crate::pass::Pass;
use crate::words::Board;
use gentl_types::{BufferId, Word};

impl Board {
    /// The word of a place in hand, as its holder reads it: this adds no entry.
    fn word_in_hand(&self, pass: &mut Pass, place: u8) -> Word
        requires table { pass.old.table ≡ board_id self.now }
        requires holds { IsWhole pass.old place }
        ensures below { place < place_count }
        ensures grows { GrowsTo pass.old pass.new }
        ensures run { Run pass.new.seen }
        ensures hands { SameHands pass.old pass.new }
        ensures word { result ≡ word_at (After pass.new.seen) place }
    {
        word_of(self.read(&mut pass.seat, place))
    }

    /// Lends the buffer of a place in hand. The place stays in hand, lifted.
    pub fn lend(&self, pass: &mut Pass, place: u8) -> Loan
        requires table { pass.old.table ≡ board_id self.now }
        requires holds { IsWhole pass.old place }
        ensures grows { GrowsTo pass.old pass.new }
        ensures run { Run pass.new.seen }
        ensures place { result.id.place ≡ place }
        ensures was { IsDown pass.old place result.filling }
        ensures loan { IsLoanOf pass.new result }
        ensures hands { Has place lifted pass.old pass.new }
    {
        let generation = self.word_in_hand(pass, place).generation;
        let buf = self.lift(pass, place);
        Loan {
            id: BufferId { place, generation },
            buf,
        }
    }

    /// Ends a loan: its buffer is set down at its place.
    pub fn spend(&self, pass: &mut Pass, loan: Loan)
        requires table { pass.old.table ≡ board_id self.now }
        requires loan { IsLoanOf pass.old loan }
        ensures stays { Stays pass.old pass.new }
        ensures hands { Has loan.id.place (down loan.filling) pass.old pass.new }
    {
        let Loan { id, buf } = loan;
        self.set_down(pass, id.place, buf);
    }
}
