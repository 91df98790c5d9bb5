//! Passes that part and meet.
ghost use Rattle.std.specs.Prelude.{◌≡◌, []};
ghost use Rattle.board_machine.specs.declared.events.Event.TheVariants as event;
ghost use Rattle.board_machine.specs.Places.{IsPrefix};
ghost use Rattle.board_machine.specs.Histories.{After, own_of};
ghost use Rattle.board_machine.specs.Laws.{IsEnded};
ghost use Rattle.buffer_words.specs.Boards.{board_id};
ghost use Rattle.buffer_words.specs.Passes.{IsEmptyHanded, Enters, SameHands, own};
ghost use Rattle.buffer_words.specs.Witness.{StaysOwn};

use crate::pass::Pass;
use crate::words::Board;
use arrayvec::ArrayVec;

impl Board {
    /// A further pass, of a new actor with empty hands, which has seen what this pass has.
    pub fn split(&self, pass: &mut Pass) -> Pass
        requires table { pass.old.table ≡ board_id self.now }
        ensures entry { Enters pass.old (event.Split result.number) pass.new }
        ensures hands { SameHands pass.old pass.new }
        ensures table { result.table ≡ board_id self.now }
        ensures seen { result.seen ≡ pass.new.seen }
        ensures unborn { own result ≡ [] }
        ensures empty { IsEmptyHanded result }
    {
        let seat = self.part(&mut pass.seat);
        let held = ArrayVec::new();
        Pass { seat, held }
    }

    /// Takes in another pass, whose hands are empty; its actor ends. What was seen is what both had
    /// seen, and the other's entries in it, and in all that is seen later, are those that it had made.
    pub fn join(&self, pass: &mut Pass, other: Pass)
        requires table { pass.old.table ≡ board_id self.now }
        requires same { other.table ≡ board_id self.now }
        requires empty { IsEmptyHanded other }
        ensures entry { Enters pass.old (event.Join other.number) pass.new }
        ensures begins { IsPrefix other.seen pass.new.seen }
        ensures own { own_of other.number pass.new.seen ≡ own other }
        ensures ended { IsEnded (After pass.new.seen) other.number }
        ensures later { StaysOwn other.number pass.new.seen (own other) }
        ensures hands { SameHands pass.old pass.new }
    {
        let Pass { seat, held: _ } = other;
        self.meet(&mut pass.seat, seat);
    }
}
