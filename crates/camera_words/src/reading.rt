ghost use Rattle.std.specs.Prelude.{◌≡◌, ◌+◌, map, length, IfSome, Some, None};
ghost use Rattle.std.specs.Bool.{OnTrue, OnFalse};
ghost use Rattle.std.specs.String.{string_bytes};
ghost use Rattle.camera_words.specs.Receiving.{nothing_yet, with_said, with_word, words_from, place_of};
ghost use Rattle.camera_words.specs.Choices.{Fits};
ghost use Rattle.camera_words.specs.declared.setting.ReceiveWord.TheVariants.{Write, Choose};

use crate::choices::found;
use crate::register_write::RegisterWrite;
use crate::said::word_in;
use crate::setting::{Choice, ReceiveWord};
use arrayvec::ArrayVec;
use std::marker::Model;

/// What the words of `receive` said so far: at most 64 writes, and each setting at most once.
#[derive(Drop)]
pub(crate) struct Reading {
    pub writes: ArrayVec<RegisterWrite, 64>,
    pub choices: ArrayVec<Choice, 13>,
}

impl Model for Reading {
    ghost use Rattle.camera_words.specs.Receiving.{SoFar, IsRead};

    ghost Value = { SoFar };

    ghost view = { λ r. record { writes = r.writes.items; choices = r.choices.items } };

    ghost invariant = { λ r. IsRead r.writes.items r.choices.items };
}

impl Reading {
    /// Of no words.
    fn new() -> Reading
        ensures { result ≡ nothing_yet }
    {
        Reading {
            writes: ArrayVec::new(),
            choices: ArrayVec::new(),
        }
    }

    /// The place of the next word.
    fn place(&self) -> u32
        ensures { result ≡ place_of self.now }
    {
        3 + self.writes.len() as u32 + self.choices.len() as u32
    }

    /// Adds a write, where there is room.
    fn write(&mut self, write: RegisterWrite) -> bool
        ensures on { OnTrue result (with_said self.old (Some (Write write)) ≡ Some self.new) }
        ensures off { OnFalse result (with_said self.old (Some (Write write)) ≡ None) }
        ensures kept { OnFalse result (self.new ≡ self.old) }
    {
        if self.writes.len() < 64 {
            self.writes.push(write);
            return true;
        }
        false
    }

    /// Adds a setting, where it wasn't set.
    fn choose(&mut self, choice: Choice) -> bool
        requires { Fits choice.setting choice.value }
        ensures on { OnTrue result (with_said self.old (Some (Choose choice)) ≡ Some self.new) }
        ensures off { OnFalse result (with_said self.old (Some (Choose choice)) ≡ None) }
        ensures kept { OnFalse result (self.new ≡ self.old) }
    {
        match found(choice.setting, self.choices.as_slice()) {
            Some(_) => false,
            None => {
                self.choices.push(choice);
                true
            }
        }
    }

    /// Adds what a word says, where it may stand here.
    fn read(&mut self, word: &[u8]) -> bool
        ensures on { OnTrue result (with_word self.old word.now ≡ Some self.new) }
        ensures off { OnFalse result (with_word self.old word.now ≡ None) }
        ensures kept { OnFalse result (self.new ≡ self.old) }
    {
        match word_in(word) {
            Some(ReceiveWord::Write(write)) => self.write(write),
            Some(ReceiveWord::Choose(choice)) => self.choose(choice),
            None => false,
        }
    }
}

/// What the words behind the first three say, or the place of the first with which no command line goes on.
pub(crate) fn read_words(words: &[String]) -> Result<Reading, u32>
    ensures { result ≡ words_from 3 nothing_yet (map (λ word. string_bytes word) words.now) }
{
    let mut reading = Reading::new();
    let mut rest = words;
    while let [word, behind @ ..] = rest {
        if !reading.read(word.as_bytes()) {
            return Err(reading.place());
        }
        rest = behind;
    }
    Ok(reading)
}
