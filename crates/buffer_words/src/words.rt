//! The shared table, and the single steps on the word and the slot of a place.
ghost use Rattle.std.specs.Prelude.{◌≡◌, ◌≢◌, ◌<◌, ◌+◌, ◌≤◌, length, Some, None, Ok, Err, ◌∷◌, OnOk, IfOk, IfErr, IfSome, IfNone};
ghost use Rattle.gev_types.specs.Limits.{place_count, max_buffer_size};
ghost use Rattle.gentl_types.specs.declared.word.State.TheVariants.{Held, Vacant};
ghost use Rattle.board_machine.specs.declared.events.Event.TheVariants as event;
ghost use Rattle.board_machine.specs.Machine.{word_at, with_state, InHand, IsHeldAs, CanEnrol};
ghost use Rattle.board_machine.specs.Histories.{After};
ghost use Rattle.atomic_table.specs.Table.{rest};
ghost use Rattle.buffer_words.specs.Codes.{code, decode};
ghost use Rattle.buffer_words.specs.Rule.{nothing};
ghost use Rattle.buffer_words.specs.Plays.{IsIdle, IsFront, HoldsBuffer, HoldsNothing, HasFilled, Loses, Reads, LooksAt, TakesUp, GivesBack, TakesBuffer};

use crate::codes::{can_enrol, is_held_as, number_of, word_of};
use crate::plays::{Asked, Enrol, Grab, Lay, Look, Read, Seek, SeekVacancy, Vacate};
use crate::rule::OneHistory;
use crate::view::View;
use atomic_table::Table;
use gentl_types::{State, Word};
use gev_types::Buf;
use std::alloc::Global;
use std::marker::Brand;

/// A pass without the order of its slots.
pub(crate) type Seat = atomic_table::Seat<Option<Buf>, View>;

/// The board that threads share.
#[derive(Drop)]
pub struct Board {
    pub(crate) table: Table<Option<Buf>, View, (), OneHistory, Global>,
    ghost sized: { (table.shared.table_id.words ≡ 19) × (table.shared.table_id.slots ≡ 15) },
}

impl Board {
    ghost use Rattle.buffer_words.specs.Boards.{board_id};

    /// The word of a place.
    pub(crate) fn look_at(&self, seat: &mut Seat, place: u8) -> Word
        requires table { seat.old.table_id ≡ board_id self.now }
        requires idle { IsIdle seat.old.me }
        requires in_range { place < place_count }
        ensures table { seat.new.table_id ≡ seat.old.table_id }
        ensures looks { LooksAt seat.old.me (event.Look place result) seat.new.me }
    {
        word_of(self.table.shared.load::<Look>(seat, place as usize))
    }

    /// The number of a place's word, without an entry.
    pub(crate) fn read(&self, seat: &mut Seat, place: u8) -> u64
        requires table { seat.old.table_id ≡ board_id self.now }
        requires idle { IsIdle seat.old.me }
        requires in_range { place < place_count }
        ensures table { seat.new.table_id ≡ seat.old.table_id }
        ensures reads { Reads seat.old.me place result seat.new.me }
    {
        self.table.shared.load::<Read>(seat, place as usize)
    }

    /// A grab's load: the number of the word.
    fn seek<J: Asked>(&self, seat: &mut Seat, place: u8, generation: u32) -> u64
        requires table { seat.old.table_id ≡ board_id self.now }
        requires idle { IsIdle seat.old.me }
        requires in_range { place < place_count }
        requires asked { generation ≡ J.number }
        ensures table { seat.new.table_id ≡ seat.old.table_id }
        ensures found { IsHeldAs (decode result) generation → Reads seat.old.me place result seat.new.me }
        ensures refused { (¬ IsHeldAs (decode result) generation) → LooksAt seat.old.me (event.Grab place generation (Err (decode result))) seat.new.me }
    {
        self.table.shared.load::<Seek<J>>(seat, place as usize)
    }

    /// A grab's exchange: the number found, which is the one that was read where the grab is done.
    fn grab_held(&self, seat: &mut Seat, place: u8, number: u64) -> u64
        requires table { seat.old.table_id ≡ board_id self.now }
        requires idle { IsIdle seat.old.me }
        requires in_range { place < place_count }
        requires is_held { (decode number).state ≡ Held }
        requires read { number ≡ code (word_at (After seat.old.me.0.seen) place) }
        ensures table { seat.new.table_id ≡ seat.old.table_id }
        ensures done { result ≡ number → TakesBuffer seat.old.me (event.Grab place (decode number).generation (Ok tt)) place seat.new.me }
        ensures refused { result ≢ number → LooksAt seat.old.me (event.Grab place (decode number).generation (Err (decode result))) seat.new.me }
    {
        self.table
            .shared
            .compare_exchange::<Grab>(seat, place as usize, number, number + 1)
    }

    /// Takes the place's buffer in hand where its word is Held with the generation; else the word
    /// that was found.
    pub(crate) fn grab_front(&self, seat: &mut Seat, place: u8, generation: u32) -> Result<(), Word>
        requires table { seat.old.table_id ≡ board_id self.now }
        requires idle { IsIdle seat.old.me }
        requires in_range { place < place_count }
        ensures table { seat.new.table_id ≡ seat.old.table_id }
        ensures done { OnOk result (TakesBuffer seat.old.me (event.Grab place generation (Ok tt)) place seat.new.me) }
        ensures refused { IfErr result (λ word. LooksAt seat.old.me (event.Grab place generation (Err word)) seat.new.me) }
    {
        let number = self.seek::<Brand>(seat, place, generation);
        let word = word_of(number);
        if !is_held_as(word, generation) {
            return Err(word);
        }
        let found = self.grab_held(seat, place, number);
        if found == number {
            Ok(())
        } else {
            Err(word_of(found))
        }
    }

    /// Gives the buffer of a place in hand to the application.
    pub(crate) fn lay_front(&self, seat: &mut Seat, place: u8)
        requires table { seat.old.table_id ≡ board_id self.now }
        requires idle { IsIdle seat.old.me }
        requires in_range { place < place_count }
        requires holds { HoldsBuffer seat.old.me place }
        ensures table { seat.new.table_id ≡ seat.old.table_id }
        ensures lays { GivesBack seat.old.me (event.Lay place) seat.new.me }
    {
        let number = self.read(seat, place);
        self.table
            .shared
            .swap::<Lay>(seat, place as usize, number - 1);
    }

    /// Makes a place in hand Vacant, whose slot is empty.
    pub(crate) fn vacate_front(&self, seat: &mut Seat, place: u8)
        requires table { seat.old.table_id ≡ board_id self.now }
        requires idle { IsIdle seat.old.me }
        requires in_range { place < place_count }
        requires holds { HoldsNothing seat.old.me place }
        ensures table { seat.new.table_id ≡ seat.old.table_id }
        ensures vacates { GivesBack seat.old.me (event.Vacate place) seat.new.me }
    {
        let number = self.read(seat, place);
        self.table
            .shared
            .swap::<Vacate>(seat, place as usize, number - 2);
    }

    /// Takes the buffer out of the slot that was taken last.
    pub(crate) fn lift_front(&self, seat: &mut Seat, place: u8) -> Buf
        requires table { seat.old.table_id ≡ board_id self.now }
        requires filled { HasFilled seat.old.me place }
        ensures table { seat.new.table_id ≡ seat.old.table_id }
        ensures was { IsFront seat.old.me place (Some result) }
        ensures now { seat.new.me ≡ (seat.old.me.0, (place, nothing) ∷ rest seat.old.me.1) }
    {
        let slot = self.table.shared.exchange(seat, place as usize, None);
        slot.unwrap()
    }

    /// Puts a buffer into the slot that was taken last.
    pub(crate) fn put_front(&self, seat: &mut Seat, place: u8, buf: Buf)
        requires table { seat.old.table_id ≡ board_id self.now }
        requires empty { IsFront seat.old.me place nothing }
        ensures table { seat.new.table_id ≡ seat.old.table_id }
        ensures now { seat.new.me ≡ (seat.old.me.0, (place, Some buf) ∷ rest seat.old.me.1) }
    {
        let _ = self.table.shared.exchange(seat, place as usize, Some(buf));
    }

    /// An enrol's load: the number of the word.
    fn seek_vacancy<J: Asked>(&self, seat: &mut Seat, place: u8, size: u32) -> u64
        requires table { seat.old.table_id ≡ board_id self.now }
        requires idle { IsIdle seat.old.me }
        requires in_range { place < place_count }
        requires size { (1 ≤ size) × (size ≤ max_buffer_size) }
        requires asked { size ≡ J.number }
        ensures table { seat.new.table_id ≡ seat.old.table_id }
        ensures found { CanEnrol (decode result) → Reads seat.old.me place result seat.new.me }
        ensures refused { (¬ CanEnrol (decode result)) → LooksAt seat.old.me (event.Enrol place size (Err (decode result))) seat.new.me }
    {
        self.table
            .shared
            .load::<SeekVacancy<J>>(seat, place as usize)
    }

    /// An enrol's exchange: the number found, which is the one that was read where the enrol is done.
    fn enrol_vacant<J: Asked>(&self, seat: &mut Seat, place: u8, number: u64, size: u32) -> u64
        requires table { seat.old.table_id ≡ board_id self.now }
        requires idle { IsIdle seat.old.me }
        requires in_range { place < place_count }
        requires size { (1 ≤ size) × (size ≤ max_buffer_size) }
        requires asked { size ≡ J.number }
        requires vacant { CanEnrol (decode number) }
        ensures table { seat.new.table_id ≡ seat.old.table_id }
        ensures done { result ≡ number → TakesUp seat.old.me (event.Enrol place size (Ok ((decode number).generation + 1))) place nothing seat.new.me }
        ensures lost { result ≢ number → Reads seat.old.me place result seat.new.me }
    {
        let new = number_of(Word {
            state: State::Away,
            size,
            generation: word_of(number).generation + 1,
        });
        self.table
            .shared
            .compare_exchange::<Enrol<J>>(seat, place as usize, number, new)
    }

    /// One try to make a Vacant place Away with a buffer of this size: its generation, or the word
    /// that stood there. None where another new buffer came to the place and went between load and exchange.
    fn try_occupy(&self, seat: &mut Seat, place: u8, size: u32) -> Option<Result<u32, Word>>
        requires table { seat.old.table_id ≡ board_id self.now }
        requires idle { IsIdle seat.old.me }
        requires in_range { place < place_count }
        requires size { (1 ≤ size) × (size ≤ max_buffer_size) }
        ensures table { seat.new.table_id ≡ seat.old.table_id }
        ensures done { IfSome result (λ end. IfOk end (λ generation. TakesUp seat.old.me (event.Enrol place size (Ok generation)) place nothing seat.new.me)) }
        ensures refused { IfSome result (λ end. IfErr end (λ word. LooksAt seat.old.me (event.Enrol place size (Err word)) seat.new.me)) }
        ensures lost { IfNone result (Loses seat.old.me place seat.new.me) }
    {
        let number = self.seek_vacancy::<Brand>(seat, place, size);
        let word = word_of(number);
        if !can_enrol(word) {
            return Some(Err(word));
        }
        let found = self.enrol_vacant::<Brand>(seat, place, number, size);
        if found == number {
            Some(Ok(word.generation + 1))
        } else {
            None
        }
    }

    /// Makes a Vacant place Away, with an empty slot for a buffer of this size in hand.
    fn occupy(&self, seat: &mut Seat, place: u8, size: u32) -> Result<u32, Word>
        requires table { seat.old.table_id ≡ board_id self.now }
        requires idle { IsIdle seat.old.me }
        requires in_range { place < place_count }
        requires size { (1 ≤ size) × (size ≤ max_buffer_size) }
        ensures table { seat.new.table_id ≡ seat.old.table_id }
        ensures done { IfOk result (λ generation. TakesUp seat.old.me (event.Enrol place size (Ok generation)) place nothing seat.new.me) }
        ensures refused { IfErr result (λ word. LooksAt seat.old.me (event.Enrol place size (Err word)) seat.new.me) }
    {
        'tries: loop {
            match self.try_occupy(seat, place, size) {
                Some(Ok(generation)) => return Ok(generation),
                Some(Err(word)) => return Err(word),
                None => {}
            }
        }
    }

    /// Brings a new buffer to a Vacant place, and has it in hand: its generation; or the buffer
    /// comes back with the word that was found.
    pub(crate) fn enrol_front(
        &self,
        seat: &mut Seat,
        place: u8,
        buf: Buf,
    ) -> Result<u32, (Buf, Word)>
        requires table { seat.old.table_id ≡ board_id self.now }
        requires idle { IsIdle seat.old.me }
        requires in_range { place < place_count }
        ensures table { seat.new.table_id ≡ seat.old.table_id }
        ensures done { IfOk result (λ generation. TakesUp seat.old.me (event.Enrol place (length buf.bytes) (Ok generation)) place (Some buf) seat.new.me) }
        ensures refused { IfErr result (λ back. (back.0 ≡ buf) × LooksAt seat.old.me (event.Enrol place (length buf.bytes) (Err back.1)) seat.new.me) }
    {
        let size = buf.bytes().len() as u32;
        match self.occupy(seat, place, size) {
            Ok(generation) => {
                self.put_front(seat, place, buf);
                Ok(generation)
            }
            Err(word) => Err((buf, word)),
        }
    }
}
