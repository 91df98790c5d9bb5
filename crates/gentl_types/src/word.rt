use std::fmt;

/// Who owns the buffer of a place.
#[derive(Clone, Copy, Debug, PartialEq, Eq)]
pub enum State {
    /// No buffer is announced at the place.
    Vacant,
    /// The application owns the buffer.
    Held,
    /// The input pool, the output queue or an actor has the buffer.
    Away,
}

impl fmt::Display for State {
    fn fmt<W: fmt::Write>(&self, f: &mut fmt::Formatter<W>) -> fmt::Result {
        match self {
            State::Vacant => write!(f, "vacant"),
            State::Held => write!(f, "held"),
            State::Away => write!(f, "away"),
        }
    }
}

/// The ownership word of a place.
#[derive(Clone, Copy, Debug, PartialEq, Eq)]
pub struct Word {
    /// Who owns the buffer.
    pub state: State,
    /// The size of the place's latest buffer, in bytes; 0 before the first.
    pub size: u32,
    /// How many buffers were announced at the place so far.
    pub generation: u32,
}

impl fmt::Display for Word {
    fn fmt<W: fmt::Write>(&self, f: &mut fmt::Formatter<W>) -> fmt::Result {
        let state = self.state;
        let size = self.size;
        let generation = self.generation;
        write!(f, "{state}, size {size}, generation {generation}")
    }
}
