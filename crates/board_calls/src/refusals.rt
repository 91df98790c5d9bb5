//! What the calls on one buffer, and start and stop, answer where they are refused.

ghost use Rattle.std.specs.Prelude.{◌≡◌, ◌<◌, Err, [], ◌∷◌, MatchBool};
ghost use Rattle.gev_types.specs.Limits.{place_count};
ghost use Rattle.board_machine.specs.declared.events.Event.TheVariants.{Grab};
ghost use Rattle.board_machine.specs.Machine.{IsHeldAs};
ghost use Rattle.board_calls.specs.Calls.{IsGone, RefusesGrab, busy_of, run_word};
ghost use Rattle.board_calls.specs.Infos.{IsLive};

use gentl_types::{BufferId, GcError, Shown, State, Word};

/// Whether the buffer with this generation was taken away from the place where this word stands.
pub fn is_gone(word: Word, generation: u32) -> bool
    ensures { MatchBool result (IsGone word generation) (IsLive word generation) }
{
    word.generation != generation || word.state == State::Vacant
}

/// What a grab of this buffer answers where it found this word.
pub fn grab_refusal(id: BufferId, word: Word) -> GcError
    requires in_range { id.place < place_count }
    requires missing { ¬ IsHeldAs word id.generation }
    ensures { RefusesGrab id result (Grab id.place id.generation (Err word) ∷ []) }
{
    if is_gone(word, id.generation) {
        return GcError::InvalidHandle(Shown::Word(word));
    }
    GcError::ResourceInUse(Shown::Word(word))
}

/// What a revoke answers where a grab answers this.
pub fn as_busy(error: GcError) -> GcError
    ensures { result ≡ busy_of error }
{
    match error {
        GcError::ResourceInUse(Shown::Word(word)) => GcError::Busy(word),
        _ => error,
    }
}

/// The run word, as a refusal shows it.
pub fn shown_run(run: u8) -> Shown
    ensures { result ≡ Shown.Word (run_word run) }
{
    Shown::Word(Word {
        state: State::Held,
        size: 0,
        generation: u32::from(run),
    })
}
