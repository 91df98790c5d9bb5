//! The board's first pass, and passes that part and meet.
ghost use Rattle.std.specs.Prelude.{◌≡◌, [], IfOk};
ghost use Rattle.board_machine.specs.Machine.{hand_at, empty_hands};
ghost use Rattle.board_machine.specs.Histories.{After};
ghost use Rattle.buffer_words.specs.declared.view.View.{View};
ghost use Rattle.buffer_words.specs.Boards.{board_id};
ghost use Rattle.buffer_words.specs.Rule.{idle};
ghost use Rattle.buffer_words.specs.Plays.{Seated, IsIdle, joining};
ghost use Rattle.buffer_words.specs.Meeting.{IsBearing, HasBorne, HasParted, IsJoining, HasMet};

use crate::plays::{Bear, End, Meet, Part};
use crate::words::{Board, Seat};
use atomic_table::Table;
use gev_types::NoMemory;
use std::alloc::Global;

const WORDS: usize = 19;

const SLOTS: usize = 15;

impl Board {
    /// A board with no buffers, and its first pass.
    pub(crate) fn open(alloc: Global) -> Result<(Board, Seat), NoMemory>
        ensures table { IfOk result (λ made. made.1.table_id ≡ board_id made.0) }
        ensures first { IfOk result (λ made. made.1.me ≡ (idle 0 [], [])) }
    {
        let (table, seat) = Table::vacant(alloc, &[0; WORDS], SLOTS, &())?;
        Ok((Board { table }, seat))
    }

    /// A split's load: adds an actor, whose pass isn't made yet.
    fn bear(&self, seat: &mut Seat)
        requires table { seat.old.table_id ≡ board_id self.now }
        requires idle { IsIdle seat.old.me }
        ensures table { seat.new.table_id ≡ seat.old.table_id }
        ensures bears { HasBorne seat.old.me seat.new.me }
    {
        self.table.shared.load::<Bear>(seat, 0);
    }

    /// Makes the pass of the actor that was added.
    fn cut(&self, seat: &mut Seat) -> Seat
        requires table { seat.old.table_id ≡ board_id self.now }
        requires bearing { IsBearing seat.old.me }
        ensures table { seat.new.table_id ≡ seat.old.table_id }
        ensures same { result.table_id ≡ seat.old.table_id }
        ensures parts { (before : Seated) → HasBorne before seat.old.me → HasParted before seat.new.me result.me }
    {
        self.table.shared.split_seat::<Part>(seat)
    }

    /// A further pass, with a new actor.
    #[tactic(auto, using(crate::proofs::Parts::is_bearing))]
    pub(crate) fn part(&self, seat: &mut Seat) -> Seat
        requires table { seat.old.table_id ≡ board_id self.now }
        requires idle { IsIdle seat.old.me }
        ensures table { seat.new.table_id ≡ seat.old.table_id }
        ensures same { result.table_id ≡ seat.old.table_id }
        ensures parts { HasParted seat.old.me seat.new.me result.me }
    {
        self.bear(seat);
        self.cut(seat)
    }

    /// Joins another seat to this one, whose actor is still to be ended.
    fn join_seat(&self, seat: &mut Seat, other: Seat)
        requires table { seat.old.table_id ≡ board_id self.now }
        requires same { other.table_id ≡ board_id self.now }
        requires idle { IsIdle seat.old.me }
        requires idle_too { IsIdle other.me }
        requires no_slots { other.me.1 ≡ [] }
        requires no_hands { hand_at (After other.me.0.seen) other.me.0.number ≡ empty_hands }
        ensures table { seat.new.table_id ≡ seat.old.table_id }
        ensures both { seat.new.me ≡ (joining seat.old.me.0 other.me.0, seat.old.me.1) }
    {
        self.table.shared.join_seat::<Meet>(seat, other);
    }

    /// A join's load: ends the actor of the seat that was joined.
    fn finish(&self, seat: &mut Seat)
        requires table { seat.old.table_id ≡ board_id self.now }
        requires joining { IsJoining seat.old.me }
        ensures table { seat.new.table_id ≡ seat.old.table_id }
        ensures met { (stays : Seated) (other : View) → seat.old.me ≡ (joining stays.0 other, stays.1) → HasMet stays other seat.new.me }
    {
        self.table.shared.load::<End>(seat, 0);
    }

    /// Takes in another pass, whose actor ends.
    #[tactic(auto, using(crate::proofs::Parts::is_joining))]
    pub(crate) fn meet(&self, seat: &mut Seat, other: Seat)
        requires table { seat.old.table_id ≡ board_id self.now }
        requires same { other.table_id ≡ board_id self.now }
        requires idle { IsIdle seat.old.me }
        requires idle_too { IsIdle other.me }
        requires no_slots { other.me.1 ≡ [] }
        requires no_hands { hand_at (After other.me.0.seen) other.me.0.number ≡ empty_hands }
        ensures table { seat.new.table_id ≡ seat.old.table_id }
        ensures met { HasMet seat.old.me other.me.0 seat.new.me }
    {
        self.join_seat(seat, other);
        self.finish(seat);
    }
}
