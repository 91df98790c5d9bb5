//! What a pass can show of the history that it has seen.
ghost use Rattle.board_machine.specs.Machine.{IsActor};
ghost use Rattle.board_machine.specs.Histories.{Run, After};
ghost use Rattle.board_machine.specs.Owners.{IsOwned};
ghost use Rattle.board_machine.specs.Handout.{IsLegal};
ghost use Rattle.buffer_words.specs.Witness.{HoldsSlots, SizesFit};

use crate::pass::Pass;

impl Pass {
    /// Does nothing, and shows what holds of all that the pass has seen: it's one history of the board,
    /// in which each place has one owner and buffers were handed out in the order of their fills.
    pub fn witness(&self)
        ensures run { Run self.now.seen }
        ensures owned { IsOwned (After self.now.seen) }
        ensures legal { IsLegal self.now.seen }
        ensures actor { IsActor (After self.now.seen) self.now.number }
        ensures holds { HoldsSlots self.now }
        ensures sizes { SizesFit self.now }
    {
        let _seat = &self.seat;
    }
}
