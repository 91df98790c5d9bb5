//! Laws over the definitions of soak runs. These functions do nothing: their contracts are the laws.
//! A type parameter is what a host is; the last four speak of the host of `soak_host`.

ghost use Rattle.std.specs.Prelude.{ℕ};
ghost use Rattle.world_machine.specs.State.{Host, Run};
ghost use Rattle.world_laws.specs.Setup.{SetupEnds};
ghost use Rattle.world_laws.specs.Beats.{CommandsAreFew};
ghost use Rattle.world_laws.specs.Ending.{RunEnds, HasText, SoakActsOnce};
ghost use Rattle.world_laws.specs.Packets.{HearsItsFrames};

/// The setup of a run takes at most 52 rounds, unless the run ends before, whatever the host asks the
/// camera for.
pub fn setup_ends<A>()
    ensures { (run : Run) (host : Host A) (start : A) → SetupEnds run host start }
{}

/// Beside the four commands of the setup a run submits at most one command a second, where all that the
/// host asks the camera for are packets. So its commands act once in a run of up to 3,200,000 rounds.
pub fn commands_are_few<A>()
    ensures { (run : Run) (host : Host A) (start : A) (n : ℕ) → CommandsAreFew run host start n }
{}

/// Each round that doesn't end a run leaves fewer rounds, and so at most 52 for the setup, one for each
/// frame and 313 for the last phase go on.
pub fn soak_run_ends()
    ensures { (run : Run) → RunEnds run }
{}

/// A run has a text and an end, whatever its seed, its number of frames and its rates.
pub fn soak_run_has_a_text()
    ensures { (run : Run) → HasText run }
{}

/// The commands of each session of a run act once: with at most 100,000 frames a run submits too few for a
/// request number to come twice.
pub fn soak_commands_act_once()
    ensures { (run : Run) → SoakActsOnce run }
{}

/// The datagrams that the receiver of a run hears are packets of the run's frames, in payloads of 1452
/// bytes, and so is what they are read as, where the run has fewer than 2^64 frames.
pub fn soak_packets_are_of_its_frames()
    ensures { (run : Run) → HearsItsFrames run }
{}
