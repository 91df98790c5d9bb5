//! The numbers of GVCP under the standard's names (GigE Vision 2.0, GVCP message values).

/// The first byte of every command.
pub const KEY: u8 = 0x42;

/// The bytes of the header of a command and of an acknowledge.
pub const HEADER_SIZE: usize = 8;

/// The most bytes that a command has after its header. It is this project's choice: with the
/// headers of GVCP, UDP and IP a message stays within the 576 bytes that every host takes.
pub const MAX_BODY_SIZE: usize = 540;

/// The command that finds cameras. Its body is empty.
pub const DISCOVERY_CMD: u16 = 0x0002;

/// The acknowledge of DISCOVERY: 248 bytes of bootstrap registers.
pub const DISCOVERY_ACK: u16 = 0x0003;

/// The command that asks for a range of stream packets again. It has no acknowledge.
pub const PACKETRESEND_CMD: u16 = 0x0040;

/// The command that reads registers: 1 to 135 addresses of 4 bytes.
pub const READREG_CMD: u16 = 0x0080;

/// The acknowledge of READREG: as many values of 4 bytes.
pub const READREG_ACK: u16 = 0x0081;

/// The command that writes registers: 1 to 67 pairs of an address and a value, 4 bytes each.
pub const WRITEREG_CMD: u16 = 0x0082;

/// The acknowledge of WRITEREG: two reserved bytes and an index of 2 bytes.
pub const WRITEREG_ACK: u16 = 0x0083;

/// The command that reads memory: an address of 4 bytes, two reserved bytes, and a count of 2.
pub const READMEM_CMD: u16 = 0x0084;

/// The acknowledge of READMEM: the address, and the bytes that stand there.
pub const READMEM_ACK: u16 = 0x0085;

/// The command that writes memory: an address of 4 bytes, and 4 to 536 bytes, a multiple of 4.
pub const WRITEMEM_CMD: u16 = 0x0086;

/// The acknowledge of WRITEMEM: two reserved bytes and an index of 2 bytes.
pub const WRITEMEM_ACK: u16 = 0x0087;

/// The acknowledge that says that a command takes longer: two reserved bytes, and milliseconds in
/// 2 bytes. It answers any command, and there is no command of its own.
pub const PENDING_ACK: u16 = 0x0089;

/// The bytes of an address and of a register's value.
pub const WORD_SIZE: usize = 4;

/// The most addresses in the body of READREG.
pub const MAX_READREG_ADDRESSES: usize = 135;

/// The bytes of an address and a value, which WRITEREG holds in pairs.
pub const PAIR_SIZE: usize = 8;

/// The most pairs of an address and a value in the body of WRITEREG.
pub const MAX_WRITEREG_PAIRS: usize = 67;

/// The bytes in the body of READMEM.
pub const READMEM_BODY_SIZE: usize = 8;

/// The most words of memory in the body of WRITEMEM: 536 bytes.
pub const MAX_WRITEMEM_WORDS: usize = 134;

/// The bytes in the body of PACKETRESEND with extended identifiers.
pub const PACKETRESEND_BODY_SIZE: usize = 20;
