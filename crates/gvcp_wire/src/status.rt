ghost use Rattle.std.specs.Prelude.{◌≡◌};

use std::fmt;

/// How a command went, or what became of a packet that was asked for again (GigE Vision 2.0, list
/// of status codes).
#[derive(Clone, Copy, Debug, PartialEq, Eq)]
pub enum Status {
    /// The command was done.
    Success,
    /// The packet of the stream was sent again.
    PacketResend,
    /// The command or the register isn't supported.
    NotImplemented,
    /// A parameter of the command is invalid.
    InvalidParameter,
    /// There is no register or memory at the address.
    InvalidAddress,
    /// The address can't be written.
    WriteProtect,
    /// The address or the count isn't a multiple of 4.
    BadAlignment,
    /// The sender isn't the one that has control.
    AccessDenied,
    /// The camera is busy.
    Busy,
    /// The packet can't be had.
    PacketUnavailable,
    /// The header of the command is invalid.
    InvalidHeader,
    /// The packet hasn't been sent a first time yet.
    PacketNotYetAvailable,
    /// The packet and those before it are no longer kept.
    PacketAndPrevRemovedFromMemory,
    /// The packet is no longer kept.
    PacketRemovedFromMemory,
}

impl Status {
    ghost use Rattle.gvcp_wire.specs.Status.{status_code};

    /// The status as a message holds it.
    pub fn code(self) -> u16
        ensures { result ≡ status_code self }
    {
        match self {
            Status::Success => 0x0000,
            Status::PacketResend => 0x0100,
            Status::NotImplemented => 0x8001,
            Status::InvalidParameter => 0x8002,
            Status::InvalidAddress => 0x8003,
            Status::WriteProtect => 0x8004,
            Status::BadAlignment => 0x8005,
            Status::AccessDenied => 0x8006,
            Status::Busy => 0x8007,
            Status::PacketUnavailable => 0x800C,
            Status::InvalidHeader => 0x800E,
            Status::PacketNotYetAvailable => 0x8010,
            Status::PacketAndPrevRemovedFromMemory => 0x8011,
            Status::PacketRemovedFromMemory => 0x8012,
        }
    }
}

impl fmt::Display for Status {
    fn fmt<W: fmt::Write>(&self, f: &mut fmt::Formatter<W>) -> fmt::Result {
        f.write_str(match self {
            Status::Success => "success",
            Status::PacketResend => "packet resend",
            Status::NotImplemented => "not implemented",
            Status::InvalidParameter => "invalid parameter",
            Status::InvalidAddress => "invalid address",
            Status::WriteProtect => "write protect",
            Status::BadAlignment => "bad alignment",
            Status::AccessDenied => "access denied",
            Status::Busy => "busy",
            Status::PacketUnavailable => "packet unavailable",
            Status::InvalidHeader => "invalid header",
            Status::PacketNotYetAvailable => "packet not yet available",
            Status::PacketAndPrevRemovedFromMemory => "packet and previous removed from memory",
            Status::PacketRemovedFromMemory => "packet removed from memory",
        })
    }
}
