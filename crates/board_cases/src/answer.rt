//! What a call answers, and its text.

use arrayvec::ArrayVec;
use gentl_types::{BufferId, GcError, Word};
use gev_types::Buf;
use std::fmt;

/// What a call answers.
#[derive(Drop)]
pub enum Answer {
    Done,
    /// A call of GenTL was refused.
    Refused(GcError),
    /// A step was refused, which found this word; or the word that a look found.
    Found(Word),
    Announced(BufferId),
    Value(u64),
    /// A place that came to hand.
    Place(u8),
    /// The same for a block, and whether an earlier image was dropped for it.
    Claimed(u8, bool),
    /// The place, the block and the first byte of a buffer.
    Loan(u8, u64, u8),
    /// Places, in their order.
    Places(ArrayVec<u8, 15>),
    /// The output's places, and whether the stream was closed.
    Output(ArrayVec<u8, 15>, bool),
    /// A fill was done, and so many images were dropped before it.
    Filled(u8),
    /// A step on the run word was refused, which found this.
    Run(u8),
    /// No place came.
    None,
    Closed,
    Empty,
    /// The actor doesn't have this place in hand.
    NotInHand,
    /// There is no such place.
    NoPlace,
}

impl Answer {
    /// The answer of a call that has none where it is done.
    pub fn done(given: Result<(), GcError>) -> Answer {
        match given {
            Ok(()) => Answer::Done,
            Err(error) => Answer::Refused(error),
        }
    }

    /// The same of a call that answers a number.
    pub fn value(given: Result<u64, GcError>) -> Answer {
        match given {
            Ok(value) => Answer::Value(value),
            Err(error) => Answer::Refused(error),
        }
    }

    /// The same of a call that gives a buffer back: how many bytes it has.
    pub fn size(given: Result<Buf, GcError>) -> Answer {
        match given {
            Ok(buf) => Answer::Value(buf.bytes().len() as u64),
            Err(error) => Answer::Refused(error),
        }
    }

    /// The same of a call that announces a buffer.
    pub fn announced(given: Result<BufferId, GcError>) -> Answer {
        match given {
            Ok(id) => Answer::Announced(id),
            Err(error) => Answer::Refused(error),
        }
    }

    /// The answer of a step that a word refuses.
    pub fn found(given: Result<(), Word>) -> Answer {
        match given {
            Ok(()) => Answer::Done,
            Err(word) => Answer::Found(word),
        }
    }

    /// The answer of a step on the run word.
    pub fn run(given: Result<(), u8>) -> Answer {
        match given {
            Ok(()) => Answer::Done,
            Err(run) => Answer::Run(run),
        }
    }

    /// The answer of a step that brings a place to hand.
    pub fn place(place: Option<u8>) -> Answer {
        match place {
            Some(place) => Answer::Place(place),
            None => Answer::None,
        }
    }

    /// The answer of a look at the output.
    pub fn output((places, closed): (ArrayVec<u8, 15>, bool)) -> Answer {
        Answer::Output(places, closed)
    }

    /// What is told of a buffer that came.
    pub fn loan(place: u8, buf: &Buf) -> Answer {
        let first = buf.bytes().first().copied().unwrap_or(0);
        Answer::Loan(place, buf.rec().block, first)
    }
}

/// The word of an answer that tells nothing more.
fn word(answer: &Answer) -> &'static str {
    match answer {
        Answer::None => "none",
        Answer::Closed => "closed",
        Answer::Empty => "empty",
        Answer::NotInHand => "not in hand",
        Answer::NoPlace => "no such place",
        _ => "ok",
    }
}

/// This text, or none.
fn text_if(is_told: bool, text: &'static str) -> &'static str {
    if is_told { text } else { "" }
}

/// Writes an answer of lists, or of a word.
fn show_lists<W: fmt::Write>(answer: &Answer, f: &mut fmt::Formatter<W>) -> fmt::Result {
    match answer {
        Answer::Places(places) => write!(f, "{:?}", places.as_slice()),
        Answer::Output(places, closed) => {
            write!(f, "{:?}{}", places.as_slice(), text_if(*closed, " closed"))
        }
        _ => f.write_str(word(answer)),
    }
}

/// Writes an answer of numbers, or of lists or a word.
fn show_numbers<W: fmt::Write>(answer: &Answer, f: &mut fmt::Formatter<W>) -> fmt::Result {
    match answer {
        Answer::Value(value) => write!(f, "{value}"),
        Answer::Place(place) => write!(f, "{place}"),
        Answer::Claimed(place, dropped) => { write!(f, "{place}{}", text_if(*dropped, " dropped")) }
        Answer::Loan(place, block, first) => write!(f, "{place} block {block} byte {first}"),
        Answer::Filled(dropped) => write!(f, "ok, dropped {dropped}"),
        Answer::Run(run) => write!(f, "run {run}"),
        _ => show_lists(answer, f),
    }
}

impl fmt::Display for Answer {
    fn fmt<W: fmt::Write>(&self, f: &mut fmt::Formatter<W>) -> fmt::Result {
        match self {
            Answer::Refused(error) => write!(f, "{} {error}", error.code()),
            Answer::Found(word) => write!(f, "{word}"),
            Answer::Announced(id) => write!(f, "{}.{}", id.place, id.generation),
            _ => show_numbers(self, f),
        }
    }
}
