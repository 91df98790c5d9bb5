//! Laws of the control. Each function only carries its statement.

ghost use Rattle.control_privilege.specs.Acts.{OnePrimary, ControlPasses, PrivilegeIsWritten, CommandsKeepAlive, OthersKeepNothingAlive};

/// At most one peer has control.
pub fn one_primary()
    ensures { OnePrimary }
{}

/// Whatever is done, the peer that has control keeps it, or lost it by its own release or because its
/// heartbeat ran out. So another peer gets it only after that.
pub fn control_passes()
    ensures { ControlPasses }
{}

/// What the privilege register holds is what was last written to it.
pub fn privilege_is_written()
    ensures { PrivilegeIsWritten }
{}

/// A command of the peer that has control gives it the heartbeat's time anew, from its moment on.
pub fn commands_keep_alive()
    ensures { CommandsKeepAlive }
{}

/// One of another peer gives it none.
pub fn others_keep_nothing_alive()
    ensures { OthersKeepNothingAlive }
{}
