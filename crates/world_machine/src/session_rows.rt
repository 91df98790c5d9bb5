//! A worked row of the definitions. The function only carries its statement.

ghost use Rattle.world_machine.specs.SessionRows.{IsWorked};

/// A repeat isn't executed, a release belongs to the session that it ends, and a late copy after it is
/// a session of its own.
pub fn worked_schedule_holds()
    ensures { IsWorked }
{}
