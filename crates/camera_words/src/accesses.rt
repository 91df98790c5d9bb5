ghost use Rattle.std.specs.Prelude.{◌≡◌, [], Some, None, map, drop};
ghost use Rattle.std.specs.Bool.{OnTrue, OnFalse};
ghost use Rattle.std.specs.String.{string_bytes};
ghost use Rattle.camera_words.specs.Accesses.{may_read, as_read, as_write, access_in, with_access, accesses_from, some_accesses, register_of, place_of};

use crate::access::{Access, RegisterWords};
use crate::parts::behind_byte;
use crate::register_write::{RegisterWrite, Stage};
use crate::words::camera_at;
use crate::writes::{register_number, write_in};
use arrayvec::ArrayVec;
use std::marker::Model;

fn may_read(register: u32) -> bool
    ensures { result ≡ may_read register }
{
    register % 4 == 0
}

/// The read of this register.
fn as_read(register: Option<u32>) -> Option<Access>
    ensures { result ≡ as_read register }
{
    match register {
        Some(register) => {
            if may_read(register) {
                Some(Access::Read { register })
            } else {
                None
            }
        }
        None => None,
    }
}

/// The access that a write is.
fn as_write(write: Option<RegisterWrite>) -> Option<Access>
    ensures { result ≡ as_write write }
{
    match write {
        Some(
            RegisterWrite {
                register,
                value,
                ..
            },
        ) => Some(Access::Write { register, value }),
        None => None,
    }
}

/// The access that a word is.
fn access_in(word: &[u8]) -> Option<Access>
    ensures { result ≡ access_in word.now }
{
    match behind_byte(b'=', word) {
        Some(_) => as_write(write_in(Stage::Set, word)),
        None => as_read(register_number(word)),
    }
}

/// The accesses that were read so far.
#[derive(Drop)]
struct Reading {
    accesses: ArrayVec<Access, 64>,
}

impl Model for Reading {
    ghost use Rattle.std.specs.Prelude.{List};
    ghost use Rattle.camera_words.specs.declared.access.Access.{Access};

    ghost Value = { List Access };

    ghost view = { λ r. r.accesses.items };
}

impl Reading {
    /// Of no words.
    fn new() -> Reading
        ensures { result ≡ [] }
    {
        Reading {
            accesses: ArrayVec::new(),
        }
    }

    /// The place of the next word.
    fn place(&self) -> u32
        ensures { result ≡ place_of self.now }
    {
        2 + self.accesses.len() as u32
    }

    /// Adds an access, where there is room.
    fn add(&mut self, access: Access) -> bool
        ensures on { OnTrue result (with_access self.old (Some access) ≡ Some self.new) }
        ensures off { OnFalse result (with_access self.old (Some access) ≡ None) }
        ensures kept { OnFalse result (self.new ≡ self.old) }
    {
        if self.accesses.len() < 64 {
            self.accesses.push(access);
            return true;
        }
        false
    }

    /// Adds the access that a word is, where it may stand here.
    fn read(&mut self, word: &[u8]) -> bool
        ensures on { OnTrue result (with_access self.old (access_in word.now) ≡ Some self.new) }
        ensures off { OnFalse result (with_access self.old (access_in word.now) ≡ None) }
        ensures kept { OnFalse result (self.new ≡ self.old) }
    {
        match access_in(word) {
            Some(access) => self.add(access),
            None => false,
        }
    }
}

/// What the words behind the first two say, or the place of the first with which no command line goes on.
fn read_accesses(words: &[String]) -> Result<Reading, u32>
    ensures { result ≡ accesses_from 2 [] (map (λ word. string_bytes word) words.now) }
{
    let mut reading = Reading::new();
    let mut rest = words;
    while let [word, behind @ ..] = rest {
        if !reading.read(word.as_bytes()) {
            return Err(reading.place());
        }
        rest = behind;
    }
    Ok(reading)
}

/// The same where one word at least stands there.
fn some_accesses(words: &[String]) -> Result<Reading, u32>
    ensures { result ≡ some_accesses 2 (map (λ word. string_bytes word) words.now) }
{
    match words {
        [] => Err(2),
        [_, ..] => read_accesses(words),
    }
}

/// The words behind the first two.
fn behind_two(words: &[String]) -> &[String]
    ensures { result.now ≡ drop 2 words.now }
{
    if words.len() > 2 { &words[2..] } else { &[] }
}

/// Which accesses `register` is to make, or the place, from 0, of the first word with which no command line goes on: of
/// the 65th access too. Where more words are wanted it is their number.
pub fn read_register(words: &[String]) -> Result<RegisterWords, u32>
    ensures { result ≡ register_of (map (λ word. string_bytes word) words.now) }
{
    let camera = camera_at(words)?;
    let reading = some_accesses(behind_two(words))?;
    Ok(RegisterWords {
        camera,
        accesses: reading.accesses,
    })
}
