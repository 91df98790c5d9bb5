//! Laws over the definitions of schedules. These functions do nothing: their contracts are the laws.

ghost use Rattle.std.specs.Prelude.{ℕ, List};
ghost use Rattle.gev_types.specs.declared.frame.Shape.{Shape};
ghost use Rattle.gev_types.specs.declared.peer.Peer.{Peer};
ghost use Rattle.world_machine.specs.Schedule.{Act};
ghost use Rattle.world_machine.specs.SessionLaws.{CommandsActOnce, AckedMeansExecuted, AreApart};

/// The register and memory commands that a session executed for its primary are without repeats, and
/// in the order in which the client submitted them, while it submitted fewer than 32,767.
pub fn commands_act_once()
    ensures { (seed : ℕ) (shape : Shape) (room : ℕ) (peer : Peer) (acts : List Act) → CommandsActOnce seed shape room peer acts }
{}

/// A command whose outcome is Acked was executed by the camera and answered with SUCCESS.
pub fn acked_commands_were_executed()
    ensures { (seed : ℕ) (shape : Shape) (room : ℕ) (peer : Peer) (acts : List Act) → AckedMeansExecuted seed shape room peer acts }
{}

/// The client and the camera of a schedule are what their own events made them, and what was executed
/// is what the camera's past says.
pub fn a_line_is_its_client_and_its_camera()
    ensures { (seed : ℕ) (shape : Shape) (room : ℕ) (acts : List Act) → AreApart seed shape room acts }
{}
