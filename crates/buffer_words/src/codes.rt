ghost use Rattle.std.specs.Prelude.{◌≡◌, ◌≤◌, MatchBool};
ghost use Rattle.gev_types.specs.Limits.{max_buffer_size};
ghost use Rattle.board_machine.specs.Machine.{IsHeldAs, CanEnrol};
ghost use Rattle.buffer_words.specs.Codes.{code, decode};

use gentl_types::{State, Word};

/// The lowest bit of the size, and of the generation, in a place's word.
const SIZE_UNIT: u64 = 1 << 2;

const GENERATION_UNIT: u64 = 1 << 29;

const SIZES: u64 = 1 << 27;

const GENERATIONS: u64 = 1 << 32;

/// The word of which this is the number.
pub(crate) fn word_of(number: u64) -> Word
    ensures { result ≡ decode number }
{
    let state = match number % 4 {
        0 => State::Vacant,
        1 => State::Held,
        _ => State::Away,
    };
    Word {
        state,
        size: (number / SIZE_UNIT % SIZES) as u32,
        generation: (number / GENERATION_UNIT % GENERATIONS) as u32,
    }
}

/// The number of this word.
pub(crate) fn number_of(word: Word) -> u64
    requires { word.size ≤ max_buffer_size }
    ensures { result ≡ code word }
{
    let state = match word.state {
        State::Vacant => 0,
        State::Held => 1,
        State::Away => 2,
    };
    state + SIZE_UNIT * u64::from(word.size) + GENERATION_UNIT * u64::from(word.generation)
}

/// Whether a grab of this generation gets the buffer.
pub(crate) fn is_held_as(word: Word, generation: u32) -> bool
    ensures { MatchBool result (IsHeldAs word generation) (¬ IsHeldAs word generation) }
{
    word.state == State::Held && word.generation == generation
}

/// Whether a new buffer can be announced at the place.
pub(crate) fn can_enrol(word: Word) -> bool
    ensures { MatchBool result (CanEnrol word) (¬ CanEnrol word) }
{
    word.state == State::Vacant && word.generation < u32::MAX
}
