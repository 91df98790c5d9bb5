//! What a caller may read of the board without an entry.

ghost use Rattle.std.specs.Prelude.{◌≡◌, ◌<◌, ◌↔◌, Some, IsTrue, length};
ghost use Rattle.gev_types.specs.Limits.{place_count};
ghost use Rattle.board_machine.specs.Machine.{word_at, hand_at, empty_hands, IsActor, InHand};
ghost use Rattle.board_model.specs.Plain.{HasBuf, content_at};

use crate::board::PlainBoard;
use gentl_types::Word;
use gev_types::Buf;

impl PlainBoard {
    /// Whether this is the number of an actor: 0, or one that a split gave, and not joined into another.
    /// No entry.
    pub fn is_actor(&self, actor: u8) -> bool
        ensures { IsTrue result ↔ IsActor self.now.board actor }
    {
        self.hands.is_actor(actor)
    }

    /// Whether this is an actor whose hands are empty. No entry.
    pub fn has_empty_hands(&self, actor: u8) -> bool
        ensures { IsTrue result ↔ (hand_at self.now.board actor ≡ empty_hands) }
    {
        self.hands.are_empty(actor)
    }

    /// Whether one more split may be made: 15 are made at most. No entry.
    pub fn can_split(&self) -> bool
        ensures { IsTrue result ↔ (length self.now.board.hands < 16) }
    {
        !self.hands.is_full()
    }

    /// Whether the place is neither vacant nor lifted. No entry.
    pub fn has_buf(&self, place: u8) -> bool
        ensures { IsTrue result ↔ HasBuf self.now place }
    {
        matches!(self.bufs.get(place as usize), Some(Some(_)))
    }

    /// Whether the place is in the actor's hands. No entry.
    pub fn holds(&self, actor: u8, place: u8) -> bool
        ensures { IsTrue result ↔ InHand self.now.board actor place }
    {
        self.hands.has(actor, place)
    }

    /// The place's ownership word. No entry.
    pub fn word(&self, place: u8) -> Word
        requires { place < place_count }
        ensures { result ≡ word_at self.now.board place }
    {
        self.words[place as usize]
    }

    /// The run word: 1 while running, 0 before the first start and after a stop, 2 after a kill stop.
    /// No entry.
    pub fn run(&self) -> u8
        ensures { result ≡ self.now.board.run }
    {
        self.run
    }

    /// The buffer of a place that is neither vacant nor lifted. No entry.
    pub fn buf(&self, place: u8) -> &Buf
        requires { HasBuf self.now place }
        ensures content { content_at self.now place ≡ Some result.now }
        ensures size { length result.now.bytes ≡ (word_at self.now.board place).size }
    {
        match &self.bufs[place as usize] {
            Some(buf) => buf,
            None => unreachable!(),
        }
    }
}
