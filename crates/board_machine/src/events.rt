use gentl_types::Word;
use gev_types::Buf;
use std::collections::LinkedList;

/// How a take ended.
#[derive(Clone, Copy, Debug, PartialEq, Eq)]
pub enum TakeEnd {
    /// The buffer of this place was the first one of the output, and is in hand now.
    Taken(u8),
    /// The output was empty.
    Empty,
    /// The stream was closed.
    Closed,
}

/// One act on the board, with its answer as the last field where it has one.
///
/// Contracts speak of events; no value of this type is made when a program runs.
#[derive(Drop)]
pub enum Event {
    /// Looks at the ownership word of a place.
    Look(u8, Word),
    /// Looks at the input pool: its places, lowest first.
    LookPool(LinkedList<u8>),
    /// Looks at the output queue: its places, first in first, and whether the close mark stands.
    LookOut(LinkedList<u8>, bool),
    /// Looks at the run word: 0 before the first start and after a stop, 1 while running, 2 after a
    /// kill stop.
    LookRun(u8),
    /// Brings a new buffer of this many bytes to a vacant place, and takes it in hand. The answer is
    /// its generation, or the word that was found.
    Enrol(u8, u32, Result<u32, Word>),
    /// Takes a held buffer with this generation in hand, or finds this word.
    Grab(u8, u32, Result<(), Word>),
    /// Gives a buffer in hand to the application.
    Lay(u8),
    /// Takes a buffer in hand away from its place, which is vacant then.
    Vacate(u8),
    /// Puts a buffer in hand into the input pool.
    Pool(u8),
    /// Takes the pool's lowest place in hand; None where the pool is empty.
    Claim(Option<u8>),
    /// Takes the whole pool in hand: its places, lowest first.
    SweepPool(LinkedList<u8>),
    /// Puts a buffer in hand, with this content, at the end of the output. Whether it was put there,
    /// or the close mark stood.
    Fill(u8, Buf, bool),
    /// Takes the first buffer of the output in hand.
    Take(TakeEnd),
    /// Takes the whole output in hand: its places, first in first.
    SweepOut(LinkedList<u8>),
    /// Sets the close mark, for good.
    Close,
    /// Sets the kill mark.
    Post,
    /// Clears the kill mark. Whether it stood.
    Unpost(bool),
    /// Starts the acquisition, or finds this run word.
    Start(Result<(), u8>),
    /// Stops the acquisition, by a kill stop where the first field says so; or finds this run word.
    Stop(bool, Result<(), u8>),
    /// Adds an actor, with this number and empty hands.
    Split(u64),
    /// Ends this other actor, whose hands are empty.
    Join(u64),
}

/// An event of a history, and the number of the actor whose act it was.
#[derive(Drop)]
pub struct Entry {
    /// The actor's number. The first actor is 0.
    pub by: u64,
    /// What the actor did, and the answer.
    pub event: Event,
}
