/// The places for buffers of one stream, numbered from 0.
pub const PLACES: u8 = 15;

/// The largest size of a buffer and of a frame, in bytes: 64 MiB.
pub const MAX_BUFFER_SIZE: u32 = 67_108_864;

/// The smallest payload of a stream packet, in bytes: a packet size of 576.
pub const MIN_PAYLOAD_SIZE: u32 = 528;

/// The largest payload of a stream packet that a camera here sends, in bytes: what a packet size of
/// 9000 leaves after the headers of IP (20), UDP (8) and GVSP with extended identifiers (20).
pub const MAX_PAYLOAD_SIZE: u32 = 8952;

/// The largest payload of a stream packet that a receiver here takes, in bytes: what a packet size
/// of 9000 leaves after the headers of IP (20), UDP (8) and GVSP with standard identifiers (8).
pub const MAX_RECEIVED_PAYLOAD_SIZE: u32 = 8964;

/// The highest packet id that fits a block. The largest frame in the smallest packets ends with a
/// trailer whose id is below it.
pub const MAX_PACKET_ID: u32 = 131_073;
