//! Laws over the definitions of soak runs. These functions do nothing: their contracts are the laws.
//! Their type parameter is what a host is.

ghost use Rattle.std.specs.Prelude.{ℕ};
ghost use Rattle.world_machine.specs.State.{Host, Run};
ghost use Rattle.world_machine.specs.Laws.{HasOneText, EndsInARound, RoundsAreActs, RoundSubmitsOne, CommandsActOnce, HostIsFed, ShortnessIsSetFirst};

/// A run has one text and one end.
pub fn run_has_one_text_and_one_end<A>()
    ensures { (run : Run) (host : Host A) (start : A) → HasOneText run host start }
{}

/// A run writes what its rounds write, and ends with the first round that has an end.
pub fn run_ends_in_a_round<A>()
    ensures { (run : Run) (host : Host A) (start : A) → EndsInARound run host start }
{}

/// What rounds do to client and camera is a schedule of control sessions, where all that the host asks
/// the camera for are packets: they are what they are after these acts.
pub fn rounds_are_acts_of_a_session<A>()
    ensures { (run : Run) (host : Host A) (start : A) (n : ℕ) → RoundsAreActs run host start n }
{}

/// Each round submits at most one command.
pub fn round_submits_at_most_one<A>()
    ensures { (run : Run) (host : Host A) (start : A) (n : ℕ) → RoundSubmitsOne run host start n }
{}

/// So the register and memory commands that a session executed are without repeats and in the order in
/// which the client submitted them, over fewer than 32,767 rounds.
pub fn commands_of_a_run_act_once<A>()
    ensures { (run : Run) (host : Host A) (start : A) (n : ℕ) → CommandsActOnce run host start n }
{}

/// The camera is told whether its frames are short before all else, and never again: so all frames that
/// it makes have the lines of that, whatever comes between.
pub fn shortness_is_set_first<A>()
    ensures { (run : Run) (host : Host A) (start : A) (n : ℕ) → ShortnessIsSetFirst run host start n }
{}

/// The host is what the datagrams, ticks and takes of its rounds made it, and each datagram that it hears
/// is a packet that the camera gave.
pub fn host_hears_what_the_camera_gave<A>()
    ensures { (run : Run) (host : Host A) (start : A) (n : ℕ) → HostIsFed run host start n }
{}
