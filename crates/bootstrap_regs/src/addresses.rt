//! The addresses of the registers that the camera reads or writes itself, and the size of the
//! register space (GigE Vision 2.0, bootstrap registers). Addresses count bytes.

/// The heartbeat timeout, in milliseconds.
pub const HEARTBEAT_TIMEOUT: u32 = 0x0938;

/// The control channel privilege.
pub const CCP: u32 = 0x0A00;

/// The host port of the stream channel; 0 closes the channel.
pub const SCP0: u32 = 0x0D00;

/// The packet size of the stream channel, in bytes, with its flags.
pub const SCPS0: u32 = 0x0D04;

/// The packet delay of the stream channel.
pub const SCPD0: u32 = 0x0D08;

/// The destination address of the stream channel.
pub const SCDA0: u32 = 0x0D18;

/// The end of the register space: no word lies there or above.
pub const END: u32 = 0x0D40;

/// How many words the register space has.
pub const WORDS: usize = 848;

/// How many words DISCOVERY answers, from the first one on.
pub const DISCOVERY_WORDS: usize = 62;
