//! The calls on the pool.
ghost use Rattle.std.specs.Prelude.{◌≡◌};
ghost use Rattle.board_machine.specs.declared.events.Event.TheVariants as event;
ghost use Rattle.buffer_words.specs.Boards.{board_id};
ghost use Rattle.buffer_words.specs.Passes.{gone, IsWhole, Enters, SameHands, Has};

use crate::pass::{Pass, bring};
use crate::words::Board;
use arrayvec::ArrayVec;

impl Board {
    /// The pool's places, lowest first.
    pub fn look_pool(&self, pass: &mut Pass) -> ArrayVec<u8, 15>
        requires table { pass.old.table ≡ board_id self.now }
        ensures entry { Enters pass.old (event.LookPool result.items) pass.new }
        ensures hands { SameHands pass.old pass.new }
    {
        self.look_at_pool(&mut pass.seat)
    }

    /// Puts the buffer of a place in hand into the pool.
    pub fn pool(&self, pass: &mut Pass, place: u8)
        requires table { pass.old.table ≡ board_id self.now }
        requires holds { IsWhole pass.old place }
        ensures entry { Enters pass.old (event.Pool place) pass.new }
        ensures hands { Has place gone pass.old pass.new }
    {
        bring(&mut pass.seat, &mut pass.held, place);
        self.put_in_pool(&mut pass.seat, place);
        pass.held.remove(0);
    }
}
