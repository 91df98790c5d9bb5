//! Worked rows of the camera's definitions. Each function only carries its statement.

ghost use Rattle.camera_machine.specs.Rows.{SecondPeerWaits, StrangerReads, ExclusiveAccessKeepsOut, HostileCommands, StreamRows, ShortRows};

/// A second peer gets control only when the heartbeat of the first ran out, and its repeat isn't
/// executed.
pub fn second_peer_waits_for_the_heartbeat()
    ensures { SecondPeerWaits }
{}

/// Without control a peer can read and can't write, and its commands don't count.
pub fn stranger_reads_and_cannot_write()
    ensures { StrangerReads }
{}

/// While a peer has exclusive access no other can read.
pub fn exclusive_access_keeps_out()
    ensures { ExclusiveAccessKeepsOut }
{}

/// Which malformed commands are answered, and how.
pub fn hostile_commands_are_answered()
    ensures { HostileCommands }
{}

/// A frame's packets, and the replies to requests for packets again.
pub fn stream_rows_hold()
    ensures { StreamRows }
{}

/// Frames of fewer lines than their leader announces.
pub fn short_rows_hold()
    ensures { ShortRows }
{}
