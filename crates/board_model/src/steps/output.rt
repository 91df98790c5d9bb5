//! The steps on the output queue.

ghost use Rattle.std.specs.Prelude.{◌≡◌, Some, length};
ghost use Rattle.board_machine.specs.declared.events.Event.TheVariants.{LookOut, Fill, Take, SweepOut, Close};
ghost use Rattle.board_machine.specs.Machine.{word_at, IsActor, InHand};
ghost use Rattle.board_machine.specs.Adding.{AddsEntry};
ghost use Rattle.board_model.specs.Plain.{HasBuf, IsLifted};
ghost use Rattle.board_model.specs.Holdings.{CameToHand, HaveBufs, WasFirst, contents_after_fill};
ghost use Rattle.board_calls.specs.Ends.{IfClosed, IfTaken, is_filled};

use crate::board::PlainBoard;
use crate::places::ROOM;
use arrayvec::ArrayVec;
use board_calls::{FillEnd, TakeEnd};
use gev_types::Buf;

// The same places in the same order.
fn copied(places: &ArrayVec<u8, ROOM>) -> ArrayVec<u8, ROOM>
    ensures { result.items ≡ places.now.items }
{
    let mut copy = ArrayVec::new();
    let all = places.as_slice();
    for place in all {
        copy.push(*place);
    }
    copy
}

impl PlainBoard {
    /// Looks at the output queue: its places, first in first, and whether the close mark stands.
    pub fn look_out(&mut self, actor: u8) -> (ArrayVec<u8, ROOM>, bool)
        requires actor { IsActor self.old.board actor }
        ensures step { AddsEntry self.old.board actor (LookOut result.0.items result.1) self.new.board }
        ensures contents { self.new.contents ≡ self.old.contents }
    {
        (copied(&self.out), self.closed)
    }

    /// Puts a lifted buffer in hand at the end of the output, with its bytes and its record. Where the
    /// close mark stands the buffer comes back, and its place stays in hand, lifted.
    pub fn fill(&mut self, actor: u8, place: u8, buf: Buf) -> FillEnd
        requires actor { IsActor self.old.board actor }
        requires in_hand { InHand self.old.board actor place }
        requires lifted { IsLifted self.old place }
        requires size { length buf.bytes ≡ (word_at self.old.board place).size }
        ensures step { AddsEntry self.old.board actor (Fill place buf (is_filled result)) self.new.board }
        ensures contents { self.new.contents ≡ contents_after_fill self.old.contents place buf (is_filled result) }
        ensures back { IfClosed result (λ back. back ≡ buf) }
    {
        if self.closed {
            return FillEnd::Closed(buf);
        }
        self.hands.remove(actor, place);
        self.bufs[place as usize] = Some(buf);
        self.out.push(place);
        FillEnd::Filled
    }

    /// Takes the first buffer of the output in hand. The output is left as it is once the close mark
    /// stands.
    pub fn take(&mut self, actor: u8) -> TakeEnd
        requires actor { IsActor self.old.board actor }
        ensures step { AddsEntry self.old.board actor (Take result) self.new.board }
        ensures in_hand { IfTaken result (λ place. InHand self.new.board actor place) }
        ensures set_down { IfTaken result (λ place. HasBuf self.new place) }
        ensures first { IfTaken result (λ place. WasFirst self.old place self.new) }
        ensures contents { self.new.contents ≡ self.old.contents }
    {
        if self.closed {
            return TakeEnd::Closed;
        }
        if self.out.is_empty() {
            return TakeEnd::Empty;
        }
        let place = self.out.remove(0);
        self.hands.put(actor, place);
        TakeEnd::Taken(place)
    }

    /// Takes the whole output in hand: its places, first in first. The close mark stays as it is.
    pub fn sweep_out(&mut self, actor: u8) -> ArrayVec<u8, ROOM>
        requires actor { IsActor self.old.board actor }
        ensures step { AddsEntry self.old.board actor (SweepOut result.items) self.new.board }
        ensures in_hand { CameToHand self.old.board actor result.items self.new.board }
        ensures set_down { HaveBufs self.new.contents result.items }
        ensures contents { self.new.contents ≡ self.old.contents }
    {
        let swept = self.out.take();
        self.hands.put_each(actor, swept.as_slice());
        swept
    }

    /// Sets the close mark, for good. The output keeps its buffers, which may be swept.
    pub fn close(&mut self, actor: u8)
        requires actor { IsActor self.old.board actor }
        ensures step { AddsEntry self.old.board actor Close self.new.board }
        ensures contents { self.new.contents ≡ self.old.contents }
    {
        self.closed = true;
    }
}
