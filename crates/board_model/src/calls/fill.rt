//! The flush of the pool to the output.

ghost use Rattle.std.specs.Prelude.{◌≡◌, [], ◌∷◌, slice_set};
ghost use Rattle.board_machine.specs.Machine.{IsActor, InHand};
ghost use Rattle.board_model.specs.Plain.{HasBuf, content_at};
ghost use Rattle.board_machine.specs.Adding.{AddsOf};
ghost use Rattle.board_calls.specs.Calls.{FlushesToOutput};
ghost use Rattle.board_model.specs.Holdings.{AreInHand, LeftHand, HaveBufs, FillsOneAsLying, FillsAsLying, FlushesAsLying, emptied, with_empty_records};

use crate::board::PlainBoard;
use board_calls::FillEnd;
use gev_types::Record;

impl PlainBoard {
    /// Fills a buffer in hand with its bytes and the empty record, or lays it where the stream was closed.
    pub(crate) fn fill_empty(&mut self, actor: u8, place: u8)
        requires actor { IsActor self.old.board actor }
        requires in_hand { InHand self.old.board actor place }
        requires set_down { HasBuf self.old place }
        ensures entries { AddsOf self.old.board actor (FillsOneAsLying self.old.contents place) self.new.board }
        ensures in_hand { LeftHand self.old.board actor (place ∷ []) self.new.board }
        ensures contents { self.new.contents ≡ slice_set self.old.contents place (emptied (content_at self.old place)) }
    {
        let mut buf = self.lift(actor, place);
        buf.set_rec(Record::default());
        match self.fill(actor, place, buf) {
            FillEnd::Filled => {}
            FillEnd::Closed(back) => {
                self.set_down(actor, place, back);
                self.lay(actor, place);
            }
        }
    }

    /// Fills each of these buffers in hand, in order.
    pub(crate) fn fill_each(&mut self, actor: u8, places: &[u8])
        requires actor { IsActor self.old.board actor }
        requires in_hand { AreInHand self.old.board actor places.now }
        requires set_down { HaveBufs self.old.contents places.now }
        ensures entries { AddsOf self.old.board actor (FillsAsLying self.old.contents places.now) self.new.board }
        ensures contents { self.new.contents ≡ with_empty_records places.now self.old.contents }
    {
        for place in places {
            self.fill_empty(actor, *place);
        }
    }

    /// Sweeps the pool, and fills its buffers, lowest place first.
    pub(crate) fn flush_to_output(&mut self, actor: u8)
        requires actor { IsActor self.old.board actor }
        ensures entries { AddsOf self.old.board actor FlushesToOutput self.new.board }
        ensures fills { AddsOf self.old.board actor (FlushesAsLying self.old.contents) self.new.board }
        ensures contents { self.new.contents ≡ with_empty_records self.old.board.pool self.old.contents }
    {
        let pooled = self.sweep_pool(actor);
        self.fill_each(actor, pooled.as_slice());
    }
}
