//! What holds of each host: each function here does nothing, and its contract is a law.

ghost use Rattle.soak_receiver.specs.Standing.{HostsKeepPromises, InputsAreHeard};

/// The trace behind which a host stands keeps the promises of each trace of a script: each buffer has one
/// owner, filled buffers are handed out once and in order, and each holds its block's frame, or has each
/// received byte in place, tells no other frame's image and isn't marked complete.
pub fn hosts_keep_promises()
    ensures { HostsKeepPromises }
{}

/// Each datagram that its acquisition was told is one that a line tells.
pub fn inputs_are_heard()
    ensures { InputsAreHeard }
{}
