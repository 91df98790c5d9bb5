//! What is kept from one turn to the next.

ghost use Rattle.std.specs.Prelude.{◌≡◌};
ghost use Rattle.camera_reader.specs.ReceiverClock.{begins_at};

use crate::hearing::Hearing;
use crate::receiver_clock::ReceiverClock;

/// What the reader keeps for its receiver from one turn to the next.
#[derive(Drop)]
pub(crate) struct TurnState {
    /// What it heard of the stream.
    pub(crate) hearing: Hearing,
    /// The receiver's clock.
    pub(crate) clock: ReceiverClock,
}

impl TurnState {
    /// Before the first turn, by a clock that tells the moment `begin`, in milliseconds.
    pub(crate) fn new(begin: u64) -> TurnState
        ensures begins { result.clock ≡ begins_at begin }
        ensures top { result.hearing.widener ≡ 0 }
        ensures refused { result.hearing.refused ≡ 0 }
    {
        TurnState {
            hearing: Hearing::new(),
            clock: ReceiverClock::new(begin),
        }
    }
}
