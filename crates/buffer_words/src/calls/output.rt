//! The calls on the output.
ghost use Rattle.std.specs.Prelude.{◌≡◌};
ghost use Rattle.board_machine.specs.declared.events.Event.TheVariants as event;
ghost use Rattle.buffer_words.specs.Boards.{board_id};
ghost use Rattle.buffer_words.specs.Passes.{IsWhole, Enters, SameHands};
ghost use Rattle.buffer_words.specs.Swept.{GetsAll};
ghost use Rattle.buffer_words.specs.Tries.{IfDid, IfLost, LostTo};
ghost use Rattle.buffer_words.specs.Output.{SeesOut};
ghost use Rattle.buffer_words.specs.Handing.{HandsOne, DidFill};

use crate::calls::claim::prepend;
use crate::pass::{Pass, bring};
use crate::steps::output::{first_place, is_marked};
use crate::tried::Tried;
use crate::words::Board;
use arrayvec::ArrayVec;
use board_machine::TakeEnd;
use std::marker::Brand;

impl Board {
    /// The output's places, first in first, and whether the stream was closed.
    pub fn look_out(&self, pass: &mut Pass) -> (ArrayVec<u8, 15>, bool)
        requires table { pass.old.table ≡ board_id self.now }
        ensures entry { Enters pass.old (event.LookOut result.0.items result.1) pass.new }
        ensures hands { SameHands pass.old pass.new }
    {
        self.look_at_out(&mut pass.seat)
    }

    /// Closes the output for good: no fill and no take is done after it.
    pub fn close(&self, pass: &mut Pass)
        requires table { pass.old.table ≡ board_id self.now }
        ensures entry { Enters pass.old event.Close pass.new }
        ensures hands { SameHands pass.old pass.new }
    {
        self.set_mark(&mut pass.seat);
    }

    /// Takes the buffers of all of the output's places in hand: the places, first in first.
    pub fn sweep_out(&self, pass: &mut Pass) -> ArrayVec<u8, 15>
        requires table { pass.old.table ≡ board_id self.now }
        ensures entry { Enters pass.old (event.SweepOut result.items) pass.new }
        ensures hands { GetsAll result.items pass.old pass.new }
    {
        let places = self.sweep_out_word(&mut pass.seat);
        prepend(&mut pass.held, &places);
        places
    }

    /// Takes the output's first buffer in hand, by one try.
    pub fn try_take(&self, pass: &mut Pass) -> Tried<TakeEnd>
        requires table { pass.old.table ≡ board_id self.now }
        ensures entry { IfDid result (λ end. Enters pass.old (event.Take end) pass.new) }
        ensures hands { IfDid result (λ end. HandsOne end pass.old pass.new) }
        ensures lost { IfLost result (λ loaded found. LostTo SeesOut pass.old loaded found pass.new) }
    {
        let number = self.see_first(&mut pass.seat);
        if is_marked(number) {
            return Tried::Did(TakeEnd::Closed);
        }
        if number == 0 {
            return Tried::Did(TakeEnd::Empty);
        }
        let place = first_place(number);
        let found = self.take_first(&mut pass.seat, number);
        if found != number {
            return Tried::Lost {
                loaded: number,
                found,
            };
        }
        pass.held.insert(0, place);
        Tried::Did(TakeEnd::Taken(place))
    }

    /// Puts the buffer of a place in hand at the end of the output, by one try: true, or false where the
    /// close mark stood, and the buffer stays in hand.
    pub fn try_fill(&self, pass: &mut Pass, place: u8) -> Tried<bool>
        requires table { pass.old.table ≡ board_id self.now }
        requires holds { IsWhole pass.old place }
        ensures did { IfDid result (λ filled. DidFill place filled pass.old pass.new) }
        ensures lost { IfLost result (λ loaded found. LostTo SeesOut pass.old loaded found pass.new) }
    {
        bring(&mut pass.seat, &mut pass.held, place);
        let number = self.see_mark::<Brand>(&mut pass.seat, place);
        if is_marked(number) {
            return Tried::Did(false);
        }
        let found = self.put_last::<Brand>(&mut pass.seat, number, place);
        if found != number {
            return Tried::Lost {
                loaded: number,
                found,
            };
        }
        pass.held.remove(0);
        Tried::Did(true)
    }
}
