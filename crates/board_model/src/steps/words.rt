//! Actors, and the steps on one place's ownership word and buffer.

ghost use Rattle.std.specs.Prelude.{◌≡◌, ◌≢◌, ◌+◌, ◌<◌, ◌↔◌, Some, IsTrue, IfErr, OnOk, OnErr, length, slice_set};
ghost use Rattle.gev_types.specs.Limits.{place_count};
ghost use Rattle.board_machine.specs.declared.events.Event.TheVariants.{Look, Enrol, Grab, Lay, Vacate, Split, Join};
ghost use Rattle.board_machine.specs.Machine.{word_at, hand_at, empty_hands, IsActor, InHand, CanEnrol, IsHeldAs};
ghost use Rattle.board_machine.specs.Adding.{AddsEntry};
ghost use Rattle.board_calls.specs.Ends.{beside_buf};
ghost use Rattle.board_model.specs.Plain.{HasBuf, IsLifted, content_at, nothing};

use crate::board::PlainBoard;
use gentl_types::{State, Word};
use gev_types::Buf;

// Vacant, and the last generation not yet used up.
fn can_enrol(word: Word) -> bool
    ensures { IsTrue result ↔ CanEnrol word }
{
    word.state == State::Vacant && word.generation < u32::MAX
}

// Held, with this generation.
fn is_held_as(word: Word, generation: u32) -> bool
    ensures { IsTrue result ↔ IsHeldAs word generation }
{
    word.state == State::Held && word.generation == generation
}

impl PlainBoard {
    /// Adds an actor with empty hands, and gives its number.
    pub fn split(&mut self, actor: u8) -> u8
        requires actor { IsActor self.old.board actor }
        requires room { length self.old.board.hands < 16 }
        ensures step { AddsEntry self.old.board actor (Split result) self.new.board }
        ensures actor { IsActor self.new.board result }
        ensures count { length self.new.board.hands ≡ length self.old.board.hands + 1 }
        ensures contents { self.new.contents ≡ self.old.contents }
    {
        self.hands.add()
    }

    /// Ends another actor, whose hands are empty.
    pub fn join(&mut self, actor: u8, other: u8)
        requires actor { IsActor self.old.board actor }
        requires empty { hand_at self.old.board other ≡ empty_hands }
        requires other { other ≢ actor }
        ensures step { AddsEntry self.old.board actor (Join other) self.new.board }
        ensures contents { self.new.contents ≡ self.old.contents }
    {
        self.hands.end(other);
    }

    /// Looks at a place's ownership word.
    pub fn load(&mut self, actor: u8, place: u8) -> Word
        requires actor { IsActor self.old.board actor }
        requires in_range { place < place_count }
        ensures step { AddsEntry self.old.board actor (Look place result) self.new.board }
        ensures contents { self.new.contents ≡ self.old.contents }
    {
        self.words[place as usize]
    }

    /// Brings a new buffer to a vacant place, and takes it in hand. The answer is its generation, or the
    /// buffer with the word that was found.
    pub fn enrol(&mut self, actor: u8, place: u8, buf: Buf) -> Result<u32, (Buf, Word)>
        requires actor { IsActor self.old.board actor }
        requires in_range { place < place_count }
        ensures step { AddsEntry self.old.board actor (Enrol place (length buf.bytes) (beside_buf result)) self.new.board }
        ensures in_hand { OnOk result (InHand self.new.board actor place) }
        ensures set_down { OnOk result (HasBuf self.new place) }
        ensures put { OnOk result (self.new.contents ≡ slice_set self.old.contents place (Some buf)) }
        ensures refused { OnErr result (self.new.contents ≡ self.old.contents) }
        ensures back { IfErr result (λ refusal. refusal.0 ≡ buf) }
    {
        let word = self.words[place as usize];
        if !can_enrol(word) {
            return Err((buf, word));
        }
        let generation = word.generation + 1;
        self.words[place as usize] = Word {
            state: State::Away,
            size: buf.bytes().len() as u32,
            generation,
        };
        self.hands.put(actor, place);
        self.bufs[place as usize] = Some(buf);
        Ok(generation)
    }

    /// Takes a buffer with this generation in hand where the application has it; else answers the word
    /// that was found.
    pub fn grab(&mut self, actor: u8, place: u8, generation: u32) -> Result<(), Word>
        requires actor { IsActor self.old.board actor }
        requires in_range { place < place_count }
        ensures step { AddsEntry self.old.board actor (Grab place generation result) self.new.board }
        ensures in_hand { OnOk result (InHand self.new.board actor place) }
        ensures set_down { OnOk result (HasBuf self.new place) }
        ensures contents { self.new.contents ≡ self.old.contents }
    {
        let word = self.words[place as usize];
        if !is_held_as(word, generation) {
            return Err(word);
        }
        self.words[place as usize].state = State::Away;
        self.hands.put(actor, place);
        Ok(())
    }

    /// Gives a buffer in hand to the application.
    pub fn lay(&mut self, actor: u8, place: u8)
        requires actor { IsActor self.old.board actor }
        requires in_hand { InHand self.old.board actor place }
        requires set_down { HasBuf self.old place }
        ensures step { AddsEntry self.old.board actor (Lay place) self.new.board }
        ensures contents { self.new.contents ≡ self.old.contents }
    {
        self.hands.remove(actor, place);
        self.words[place as usize].state = State::Held;
    }

    /// Takes a buffer in hand away from its place, which is vacant then.
    pub fn vacate(&mut self, actor: u8, place: u8) -> Buf
        requires actor { IsActor self.old.board actor }
        requires in_hand { InHand self.old.board actor place }
        requires set_down { HasBuf self.old place }
        ensures step { AddsEntry self.old.board actor (Vacate place) self.new.board }
        ensures value { content_at self.old place ≡ Some result }
        ensures contents { self.new.contents ≡ slice_set self.old.contents place nothing }
    {
        self.hands.remove(actor, place);
        self.words[place as usize].state = State::Vacant;
        match self.bufs[place as usize].take() {
            Some(buf) => buf,
            None => unreachable!(),
        }
    }

    /// Lifts a buffer in hand out of its place, which stays in hand. No entry.
    pub fn lift(&mut self, actor: u8, place: u8) -> Buf
        requires actor { IsActor self.old.board actor }
        requires in_hand { InHand self.old.board actor place }
        requires set_down { HasBuf self.old place }
        ensures board { self.new.board ≡ self.old.board }
        ensures value { content_at self.old place ≡ Some result }
        ensures contents { self.new.contents ≡ slice_set self.old.contents place nothing }
        ensures size { length result.bytes ≡ (word_at self.old.board place).size }
    {
        match self.bufs[place as usize].take() {
            Some(buf) => buf,
            None => unreachable!(),
        }
    }

    /// Sets a buffer of the word's size down at a place in hand whose buffer is lifted. No entry.
    pub fn set_down(&mut self, actor: u8, place: u8, buf: Buf)
        requires actor { IsActor self.old.board actor }
        requires in_hand { InHand self.old.board actor place }
        requires lifted { IsLifted self.old place }
        requires size { length buf.bytes ≡ (word_at self.old.board place).size }
        ensures board { self.new.board ≡ self.old.board }
        ensures contents { self.new.contents ≡ slice_set self.old.contents place (Some buf) }
    {
        self.bufs[place as usize] = Some(buf);
    }
}
