//! Laws of the definitions. Each function only carries its statement.

ghost use Rattle.camera_reader.specs.Laws.{SilenceIsWaited, WithoutRoundsNothingIsAsked};
ghost use Rattle.camera_reader.specs.ReceiverClock.{ReceiverClockCutsSteps};

/// Where the camera was silent behind a turn, that turn's moment lies the whole silence behind that of the last datagram.
pub fn silence_is_waited()
    ensures { SilenceIsWaited }
{}

/// Where no block may ask for packets again, what the turns sent is the client's alone.
pub fn nothing_is_asked()
    ensures { WithoutRoundsNothingIsAsked }
{}

/// The receiver's clock takes the host's steps from turn to turn, each one above 1 ms cut to 1 ms where a datagram came, and
/// above 5 ms to 5 ms where none came, where the host's clock never falls.
pub fn receiver_clock_cuts_steps()
    ensures { ReceiverClockCutsSteps }
{}
