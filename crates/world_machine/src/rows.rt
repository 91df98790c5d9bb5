//! Worked runs. Each function only carries its statement.

ghost use Rattle.world_machine.specs.Rows.{SetupAlone, NothingComesThrough};

/// Without frames a run ends when the setup is done.
pub fn setup_alone_is_a_run()
    ensures { SetupAlone }
{}

/// Over a network that loses all the first command has no answer.
pub fn nothing_comes_through()
    ensures { NothingComesThrough }
{}
