//! When the camera is silent.

ghost use Rattle.std.specs.Prelude.{◌≡◌};
ghost use Rattle.camera_reader.specs.Listening.{last_heard, is_silent, listened};

use first_leader::{Pace, is_over, next_pace};

/// What is known between two turns of when the camera was heard.
#[derive(Clone, Copy, Debug, PartialEq, Eq)]
pub struct Listening {
    /// The moment of the last turn in which a datagram came, or of the begin, in milliseconds.
    pub heard: u64,
    /// How the wait for the next one stands.
    pub pace: Pace,
}

/// The moment at which the camera was heard last, behind a turn of this moment.
fn last_heard(listening: Listening, moment: u64, datagram: bool) -> u64
    ensures { result ≡ last_heard listening moment datagram }
{
    if datagram { moment } else { listening.heard }
}

/// Whether the camera is silent behind a turn of this moment.
pub(crate) fn is_silent(silence: u64, listening: Listening, moment: u64, datagram: bool) -> bool
    ensures { result ≡ is_silent silence listening moment datagram }
{
    is_over(
        silence,
        last_heard(listening, moment, datagram),
        listening.pace,
        moment,
    )
}

/// What is known behind a turn of this moment.
pub(crate) fn listened(silence: u64, listening: Listening, moment: u64, datagram: bool) -> Listening
    ensures { result ≡ listened silence listening moment datagram }
{
    Listening {
        heard: last_heard(listening, moment, datagram),
        pace: next_pace(silence, listening.pace, moment),
    }
}
