//! The times of the control client, and the numbers of its setup.

/// How often a command is sent.
pub const SENDS: u8 = 3;

/// How many milliseconds after a send the next one comes, or the end of the command, where no other
/// limit is given.
pub const SEND_LIMIT: u64 = 40;

/// How many milliseconds after the last acknowledge an idle client sends a heartbeat.
pub const HEARTBEAT_TIME: u64 = 1000;

/// The privilege that the setup asks for: control access (GigE Vision 2.0, bootstrap registers).
pub const CONTROL_ACCESS: u32 = 2;

/// The packet size that the setup asks for, in bytes, with the headers of IP, UDP and GVSP.
pub const SETUP_PACKET_SIZE: u32 = 1500;

/// How many commands the setup has.
pub const SETUP_SIZE: u8 = 4;
