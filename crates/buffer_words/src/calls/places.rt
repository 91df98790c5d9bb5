//! The calls on the word and the slot of a place.
ghost use Rattle.std.specs.Prelude.{◌≡◌, ◌<◌, ◌≤◌, [], length, IfOk, IfErr, OnOk, OnErr, Ok, Err};
ghost use Rattle.gev_types.specs.Limits.{place_count};
ghost use Rattle.board_machine.specs.declared.events.Event.TheVariants as event;
ghost use Rattle.board_calls.specs.Ends.{beside_buf};
ghost use Rattle.buffer_words.specs.Boards.{board_id};
ghost use Rattle.buffer_words.specs.Passes.{gone, lifted, down, slot_at, IsLifted, IsDown, IsWhole, IsEmptyHanded, size_at, Enters, Stays, SameHands, Has, Gets};

use crate::pass::{Pass, bring};
use crate::words::Board;
use arrayvec::ArrayVec;
use gentl_types::Word;
use gev_types::{Buf, NoMemory};
use std::alloc::Global;

impl Board {
    /// A board with no buffers, and the pass of its first actor.
    pub fn new(alloc: Global) -> Result<(Board, Pass), NoMemory>
        ensures table { IfOk result (λ made. made.1.table ≡ board_id made.0) }
        ensures number { IfOk result (λ made. made.1.number ≡ 0) }
        ensures seen { IfOk result (λ made. made.1.seen ≡ []) }
        ensures hands { IfOk result (λ made. IsEmptyHanded made.1) }
    {
        let (board, seat) = Board::open(alloc)?;
        let held = ArrayVec::new();
        Ok((board, Pass { seat, held }))
    }

    /// The word of a place.
    pub fn load(&self, pass: &mut Pass, place: u8) -> Word
        requires table { pass.old.table ≡ board_id self.now }
        requires in_range { place < place_count }
        ensures entry { Enters pass.old (event.Look place result) pass.new }
        ensures hands { SameHands pass.old pass.new }
    {
        self.look_at(&mut pass.seat, place)
    }

    /// Takes the buffer of a place in hand, where its word is Held with this generation; else the
    /// word that was found.
    pub fn grab(&self, pass: &mut Pass, place: u8, generation: u32) -> Result<(), Word>
        requires table { pass.old.table ≡ board_id self.now }
        requires in_range { place < place_count }
        ensures entry { Enters pass.old (event.Grab place generation result) pass.new }
        ensures done { OnOk result (Gets place pass.old pass.new) }
        ensures refused { OnErr result (SameHands pass.old pass.new) }
    {
        self.grab_front(&mut pass.seat, place, generation)?;
        pass.held.insert(0, place);
        Ok(())
    }

    /// Brings a new buffer to a Vacant place, and has it in hand: its generation. Where the place
    /// isn't Vacant, or has had its last generation, the buffer comes back with the word that was found.
    pub fn enrol(&self, pass: &mut Pass, place: u8, buf: Buf) -> Result<u32, (Buf, Word)>
        requires table { pass.old.table ≡ board_id self.now }
        requires in_range { place < place_count }
        ensures entry { Enters pass.old (event.Enrol place (length buf.bytes) (beside_buf result)) pass.new }
        ensures new { OnOk result (slot_at pass.old place ≡ gone) }
        ensures done { OnOk result (Has place (down buf) pass.old pass.new) }
        ensures refused { OnErr result (SameHands pass.old pass.new) }
        ensures back { IfErr result (λ refusal. refusal.0 ≡ buf) }
    {
        match self.enrol_front(&mut pass.seat, place, buf) {
            Ok(generation) => {
                pass.held.insert(0, place);
                Ok(generation)
            }
            Err(refusal) => Err(refusal),
        }
    }

    /// Gives the buffer of a place in hand to the application.
    pub fn lay(&self, pass: &mut Pass, place: u8)
        requires table { pass.old.table ≡ board_id self.now }
        requires holds { IsWhole pass.old place }
        ensures entry { Enters pass.old (event.Lay place) pass.new }
        ensures hands { Has place gone pass.old pass.new }
    {
        bring(&mut pass.seat, &mut pass.held, place);
        self.lay_front(&mut pass.seat, place);
        pass.held.remove(0);
    }

    /// Takes the buffer of a place in hand out of its slot. The place stays in hand, lifted.
    pub fn lift(&self, pass: &mut Pass, place: u8) -> Buf
        requires table { pass.old.table ≡ board_id self.now }
        requires holds { IsWhole pass.old place }
        ensures stays { Stays pass.old pass.new }
        ensures was { IsDown pass.old place result }
        ensures size { length result.bytes ≡ size_at pass.old place }
        ensures hands { Has place lifted pass.old pass.new }
    {
        bring(&mut pass.seat, &mut pass.held, place);
        self.lift_front(&mut pass.seat, place)
    }

    /// Puts a buffer into the slot of a place in hand that is lifted.
    pub fn set_down(&self, pass: &mut Pass, place: u8, buf: Buf)
        requires table { pass.old.table ≡ board_id self.now }
        requires holds { IsLifted pass.old place }
        requires size { length buf.bytes ≡ size_at pass.old place }
        ensures stays { Stays pass.old pass.new }
        ensures hands { Has place (down buf) pass.old pass.new }
    {
        bring(&mut pass.seat, &mut pass.held, place);
        self.put_front(&mut pass.seat, place, buf);
    }

    /// Takes the buffer of a place in hand away from the place, which is Vacant then.
    pub fn vacate(&self, pass: &mut Pass, place: u8) -> Buf
        requires table { pass.old.table ≡ board_id self.now }
        requires holds { IsWhole pass.old place }
        ensures entry { Enters pass.old (event.Vacate place) pass.new }
        ensures was { IsDown pass.old place result }
        ensures hands { Has place gone pass.old pass.new }
    {
        let buf = self.lift(pass, place);
        self.vacate_lifted(pass, place);
        buf
    }

    /// Makes a place in hand Vacant, which is lifted.
    fn vacate_lifted(&self, pass: &mut Pass, place: u8)
        requires table { pass.old.table ≡ board_id self.now }
        requires holds { IsLifted pass.old place }
        ensures entry { Enters pass.old (event.Vacate place) pass.new }
        ensures hands { Has place gone pass.old pass.new }
    {
        bring(&mut pass.seat, &mut pass.held, place);
        self.vacate_front(&mut pass.seat, place);
        pass.held.remove(0);
    }
}
