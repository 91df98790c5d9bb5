//! The commands that were sent last, for a line that tells which one had no answer.

use std::fmt;

/// The first byte of a command (GigE Vision 2.0, GVCP).
const KEY: u8 = 0x42;

const READREG: u16 = 0x0080;

const WRITEREG: u16 = 0x0082;

const READMEM: u16 = 0x0084;

/// How many commands are kept: more than a run sends behind one that had no answer, to stop its camera.
const KEPT: usize = 128;

/// What a command does with a register or with memory.
#[derive(Clone, Copy)]
enum Access {
    ReadReg,
    WriteReg,
    ReadMem,
}

/// A command that was sent to a camera. The text is its request number, its name and its first register or address.
#[derive(Clone, Copy)]
pub struct SentCommand {
    /// Its request number.
    pub request: u16,
    access: Access,
    address: u32,
}

/// What the command with this code does; None of a command that no camera acknowledges, as PACKETRESEND, and of one that
/// this program doesn't send.
fn access_of(code: u16) -> Option<Access> {
    match code {
        READREG => Some(Access::ReadReg),
        WRITEREG => Some(Access::WriteReg),
        READMEM => Some(Access::ReadMem),
        _ => None,
    }
}

impl SentCommand {
    /// The command that these bytes are, if they are one that reads or writes.
    pub(crate) fn read(bytes: &[u8]) -> Option<SentCommand> {
        let [key, _, code_high, code_low, _, _, high, low, a, b, c, d, ..] = *bytes else {
            return None;
        };
        if key != KEY {
            return None;
        }
        let access = access_of(u16::from_be_bytes([code_high, code_low]))?;
        Some(SentCommand {
            request: u16::from_be_bytes([high, low]),
            access,
            address: u32::from_be_bytes([a, b, c, d]),
        })
    }
}

/// The last commands that a link sent, each in the place of its request number.
#[derive(Clone, Copy)]
pub(crate) struct SentCommands {
    kept: [Option<SentCommand>; KEPT],
}

impl SentCommands {
    /// None yet.
    pub(crate) fn new() -> SentCommands {
        SentCommands { kept: [None; KEPT] }
    }

    /// Keeps this command too.
    pub(crate) fn keep(&mut self, command: SentCommand) {
        self.kept[usize::from(command.request) % KEPT] = Some(command);
    }

    /// The command with this request number.
    pub(crate) fn with_request(&self, request: u16) -> Option<SentCommand> {
        let command = self.kept[usize::from(request) % KEPT]?;
        if command.request == request {
            Some(command)
        } else {
            None
        }
    }
}

impl fmt::Display for Access {
    fn fmt<W: fmt::Write>(&self, f: &mut fmt::Formatter<W>) -> fmt::Result {
        f.write_str(match self {
            Access::ReadReg => "READREG",
            Access::WriteReg => "WRITEREG",
            Access::ReadMem => "READMEM",
        })
    }
}

impl fmt::Display for SentCommand {
    fn fmt<W: fmt::Write>(&self, f: &mut fmt::Formatter<W>) -> fmt::Result {
        let SentCommand {
            request,
            access,
            address,
        } = self;
        write!(f, "request {request} is {access} 0x{address:08x}")
    }
}
