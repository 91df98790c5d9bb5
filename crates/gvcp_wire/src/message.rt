use thiserror::Error;

/// The fields of a command's header that say what is asked (GigE Vision 2.0, GVCP command header).
#[derive(Clone, Copy, Debug, PartialEq, Eq)]
pub struct CommandHead {
    /// The flag bits. Bits without a name are kept and have no effect.
    pub flags: u8,
    /// The command's code.
    pub code: u16,
    /// The request number, which the acknowledge repeats. No command has 0.
    pub req: u16,
}

/// What a command asks. Bodies are lent from the datagram.
#[derive(Clone, Copy, Debug, PartialEq, Eq)]
pub enum Command<'a> {
    /// READREG: the addresses, 4 bytes each.
    ReadReg(&'a [u8]),
    /// WRITEREG: pairs of an address and a value, 4 bytes each.
    WriteReg(&'a [u8]),
    /// READMEM: how many bytes from which address on. The parser tests neither.
    ReadMem {
        /// The first address.
        address: u32,
        /// A number of bytes.
        count: u16,
    },
    /// WRITEMEM: the bytes that go to an address and those after it.
    WriteMem {
        /// The first address.
        address: u32,
        /// The bytes.
        bytes: &'a [u8],
    },
    /// DISCOVERY, PACKETRESEND, and a code that the table of commands doesn't have.
    Other {
        /// The command's code.
        code: u16,
        /// What follows the header.
        body: &'a [u8],
    },
}

/// An acknowledge (GigE Vision 2.0, GVCP acknowledge header).
#[derive(Clone, Copy, Debug, PartialEq, Eq)]
pub struct Ack<'a> {
    /// How the command went.
    pub status: u16,
    /// The acknowledge's code.
    pub code: u16,
    /// The request number of the command.
    pub req: u16,
    /// What follows the header.
    pub body: &'a [u8],
}

/// Why bytes are no message: the first of these that holds.
#[derive(Clone, Copy, Debug, PartialEq, Eq, Error)]
pub enum ControlError {
    /// There are fewer bytes than a header has: so many.
    #[error("{0} bytes, and a header has 8")]
    Short(u32),
    /// A command begins with this byte and not with the key.
    #[error("key 0x{0:02x}, and not 0x42")]
    Key(u8),
    /// The request number is 0.
    #[error("request number 0")]
    ZeroReq,
    /// The length field isn't the number of bytes after the header.
    #[error("length field {field}, and {real} bytes after the header")]
    Length {
        /// The field's value, in bytes.
        field: u16,
        /// The bytes after the header, or the largest `u32` where there are more.
        real: u32,
    },
    /// A command's body is too long, or not as the table of commands says.
    #[error("command 0x{code:04x} has another body", code = .0.code)]
    Form(CommandHead),
}
