use crate::addresses::{CCP, HEARTBEAT_TIMEOUT, SCDA0, SCP0, SCPD0, SCPS0};

/// What a register holds before anything was written to it.
#[derive(Clone, Copy, Debug, PartialEq, Eq)]
pub enum Initial {
    /// This number, in the register's first word.
    Number(u32),
    /// A text of at most 8 bytes, filled up with zero bytes.
    Text([u8; 8]),
}

/// Which values may be written to each word of a register.
#[derive(Clone, Copy, Debug, PartialEq, Eq)]
pub enum Writable {
    /// None: the register can only be read.
    No,
    /// Every value.
    Any,
    /// The values from the first to the second.
    Between(u32, u32),
    /// A packet size of 576 to 9000 bytes in the low 16 bits, and the flag 'do not fragment' or not.
    PacketSize,
}

/// A register of one or more words of 4 bytes.
#[derive(Clone, Copy, Debug, PartialEq, Eq)]
pub struct Register {
    /// The address of its first byte, a multiple of 4.
    pub address: u32,
    /// How many words it has.
    pub words: u32,
    /// What it holds at first. What this doesn't name is 0.
    pub initial: Initial,
    /// What may be written to its words.
    pub writable: Writable,
}

/// The bootstrap registers of the camera by rising address (GigE Vision 2.0, bootstrap registers). A
/// word of the register space that none of them has holds 0 and can't be written. The initial values
/// and the ranges are this project's choice.
pub const REGISTERS: [Register; 27] = [
    // version
    Register {
        address: 0x0000,
        words: 1,
        initial: Initial::Number(0x0002_0000),
        writable: Writable::No,
    },
    // device mode
    Register {
        address: 0x0004,
        words: 1,
        initial: Initial::Number(0x8000_0001),
        writable: Writable::No,
    },
    // MAC address, high part
    Register {
        address: 0x0008,
        words: 1,
        initial: Initial::Number(0x0000_0211),
        writable: Writable::No,
    },
    // MAC address, low part
    Register {
        address: 0x000C,
        words: 1,
        initial: Initial::Number(0x2233_4455),
        writable: Writable::No,
    },
    // supported IP configuration
    Register {
        address: 0x0010,
        words: 1,
        initial: Initial::Number(0x0000_0004),
        writable: Writable::No,
    },
    // current IP configuration
    Register {
        address: 0x0014,
        words: 1,
        initial: Initial::Number(0x0000_0004),
        writable: Writable::No,
    },
    // current IP address
    Register {
        address: 0x0024,
        words: 1,
        initial: Initial::Number(0x7F00_0001),
        writable: Writable::No,
    },
    // current subnet mask
    Register {
        address: 0x0034,
        words: 1,
        initial: Initial::Number(0xFF00_0000),
        writable: Writable::No,
    },
    // current gateway
    Register {
        address: 0x0044,
        words: 1,
        initial: Initial::Number(0),
        writable: Writable::No,
    },
    // manufacturer name
    Register {
        address: 0x0048,
        words: 8,
        initial: Initial::Text(*b"GEVACQ\0\0"),
        writable: Writable::No,
    },
    // model name
    Register {
        address: 0x0068,
        words: 8,
        initial: Initial::Text(*b"SIMCAM\0\0"),
        writable: Writable::No,
    },
    // device version
    Register {
        address: 0x0088,
        words: 8,
        initial: Initial::Text(*b"1.0\0\0\0\0\0"),
        writable: Writable::No,
    },
    // manufacturer information
    Register {
        address: 0x00A8,
        words: 12,
        initial: Initial::Text(*b"\0\0\0\0\0\0\0\0"),
        writable: Writable::No,
    },
    // serial number
    Register {
        address: 0x00D8,
        words: 4,
        initial: Initial::Text(*b"0001\0\0\0\0"),
        writable: Writable::No,
    },
    // user-defined name
    Register {
        address: 0x00E8,
        words: 4,
        initial: Initial::Text(*b"\0\0\0\0\0\0\0\0"),
        writable: Writable::Any,
    },
    // first URL
    Register {
        address: 0x0200,
        words: 128,
        initial: Initial::Text(*b"\0\0\0\0\0\0\0\0"),
        writable: Writable::No,
    },
    // second URL
    Register {
        address: 0x0400,
        words: 128,
        initial: Initial::Text(*b"\0\0\0\0\0\0\0\0"),
        writable: Writable::No,
    },
    // number of network interfaces
    Register {
        address: 0x0600,
        words: 1,
        initial: Initial::Number(1),
        writable: Writable::No,
    },
    // number of message channels
    Register {
        address: 0x0900,
        words: 1,
        initial: Initial::Number(0),
        writable: Writable::No,
    },
    // number of stream channels
    Register {
        address: 0x0904,
        words: 1,
        initial: Initial::Number(1),
        writable: Writable::No,
    },
    // GVCP capability: concatenation, WRITEMEM and PACKETRESEND
    Register {
        address: 0x0934,
        words: 1,
        initial: Initial::Number(0x0000_0007),
        writable: Writable::No,
    },
    // heartbeat timeout, in milliseconds
    Register {
        address: HEARTBEAT_TIMEOUT,
        words: 1,
        initial: Initial::Number(3000),
        writable: Writable::Between(500, 60_000),
    },
    // control channel privilege: release, exclusive access, control access
    Register {
        address: CCP,
        words: 1,
        initial: Initial::Number(0),
        writable: Writable::Between(0, 2),
    },
    // host port of the stream channel
    Register {
        address: SCP0,
        words: 1,
        initial: Initial::Number(0),
        writable: Writable::Between(0, 65_535),
    },
    // packet size of the stream channel
    Register {
        address: SCPS0,
        words: 1,
        initial: Initial::Number(0x0000_05DC),
        writable: Writable::PacketSize,
    },
    // packet delay of the stream channel, without effect here
    Register {
        address: SCPD0,
        words: 1,
        initial: Initial::Number(0),
        writable: Writable::Any,
    },
    // destination address of the stream channel
    Register {
        address: SCDA0,
        words: 1,
        initial: Initial::Number(0),
        writable: Writable::Any,
    },
];
