ghost use Rattle.std.specs.Prelude.{◌≡◌, ◌++◌, codes};
ghost use Rattle.std.specs.Fmt.{WritesOnOk, decimal};
ghost use Rattle.gev_status.specs.ExitStatus.{exit_status};
ghost use Rattle.gev_status.specs.StatusTexts.{script_cause, capture_cause, picture_cause};

use frame_pictures::NoPicture;
use gev_capture::CaptureKind;
use gev_script::ScriptKind;
use std::fmt;

/// How a run of the program ended.
#[derive(Clone, Copy, Debug, PartialEq, Eq)]
pub enum Status {
    /// The script was read to its `end` line, and its report was written.
    Done,
    /// The words aren't a command line.
    Usage {
        /// The place, from 0, of the first word that isn't understood, or the number of words where
        /// more are wanted.
        place: u32,
    },
    /// A line of the script is refused. The report of the lines before it was written.
    BadScript {
        /// The line's number, from 1.
        line: u64,
        /// Why it's refused.
        kind: ScriptKind,
    },
    /// Reading failed.
    ReadFault,
    /// Writing failed.
    WriteFault,
    /// A link failed: it couldn't be bound, or a send or a receive failed.
    LinkFault,
    /// Memory ran out.
    NoMemory,
    /// A command that was sent three times had no answer.
    NoAnswer {
        /// The command's request number.
        req: u16,
    },
    /// The camera refused a command.
    Refused {
        /// The status of its acknowledge.
        status: u16,
    },
    /// The reader of a live run made all its turns before the asked number of frames was handed out.
    TurnsSpent {
        /// How many turns it made.
        turns: u64,
        /// How many frames were handed out.
        frames: u32,
    },
    /// A record of the capture is refused. The text of the packets before it was written.
    BadCapture {
        /// The record's number, from 1.
        record: u64,
        /// Why it's refused.
        kind: CaptureKind,
    },
    /// The buffer that was asked for has no picture, or none of all has one. Nothing was written.
    NoPicture {
        /// Why it has none.
        why: NoPicture,
    },
    /// Nothing came from the camera for as long as was to be waited.
    Silent {
        /// How many buffers were handed out.
        frames: u32,
    },
    /// Another application controls the camera.
    Controlled,
    /// No URL of the camera says that its description lies in it.
    NoDescription,
    /// The camera gave its control away.
    ControlLost {
        /// How many buffers were handed out.
        frames: u32,
    },
    /// The capture was read to its end, and its script has no datagram.
    NoDatagram {
        /// The port to which none was sent.
        port: u16,
    },
    /// The camera refused a read or a write of one register.
    RefusedAt {
        /// The register's address.
        register: u32,
        /// The status of the acknowledge.
        status: u16,
    },
}

impl Status {
    /// The exit status of the program.
    pub fn number(&self) -> u8
        ensures { result ≡ exit_status self.now }
    {
        match self {
            Status::Done => 0,
            Status::Usage { .. } => 2,
            Status::BadScript { .. } => 3,
            Status::ReadFault => 4,
            Status::WriteFault => 5,
            Status::LinkFault => 6,
            Status::NoMemory => 7,
            Status::NoAnswer { .. } => 9,
            Status::Refused { .. } => 10,
            Status::TurnsSpent { .. } => 11,
            Status::BadCapture { .. } => 12,
            Status::NoPicture { .. } => 13,
            Status::Silent { .. } => 14,
            Status::Controlled => 15,
            Status::NoDescription => 16,
            Status::ControlLost { .. } => 17,
            Status::NoDatagram { .. } => 18,
            Status::RefusedAt { .. } => 10,
        }
    }
}

/// The text of a fault, as it stands on standard error. `Done` has no text there.
impl fmt::Display for Status {
    ghost use Rattle.std.specs.Prelude.{Some};
    ghost use Rattle.gev_status.specs.StatusTexts.{status_text};

    ghost output = { λ status. Some (status_text status) };

    fn fmt<W: fmt::Write>(&self, f: &mut fmt::Formatter<W>) -> fmt::Result {
        match self {
            Status::Done => f.write_str("done"),
            Status::Usage { place } => {
                write_between(f, "word ", u64::from(*place), " isn't understood")
            }
            Status::BadScript { line, kind } => {
                write_between(f, "line ", *line, script_cause(*kind))
            }
            Status::ReadFault => f.write_str("reading failed"),
            Status::WriteFault => f.write_str("writing failed"),
            Status::LinkFault => f.write_str("the network failed"),
            Status::NoMemory => f.write_str("out of memory"),
            Status::NoAnswer { req } => write!(f, "no answer to request {req}"),
            Status::Refused { status } => write!(f, "refused with status 0x{status:04x}"),
            Status::TurnsSpent { turns, frames } => {
                write!(f, "{turns} turns spent, {frames} frames")
            }
            Status::BadCapture { record, kind } => {
                write_between(f, "record ", *record, capture_cause(*kind))
            }
            Status::NoPicture { why } => write_no_picture(f, *why),
            Status::Silent { frames } => {
                write_between(f, "the camera is silent, ", u64::from(*frames), " frames")
            }
            Status::Controlled => f.write_str("another application controls the camera"),
            Status::NoDescription => f.write_str("the description isn't in the camera"),
            Status::ControlLost { frames } => write_between(
                f,
                "the camera gave its control away, ",
                u64::from(*frames),
                " frames",
            ),
            Status::NoDatagram { port } => write!(f, "no datagram to port {port}"),
            Status::RefusedAt { register, status } => {
                write!(
                    f,
                    "register 0x{register:08x} refused with status 0x{status:04x}"
                )
            }
        }
    }
}

/// Writes a number between two texts.
fn write_between<W: fmt::Write>(
    f: &mut fmt::Formatter<W>,
    before: &str,
    number: u64,
    after: &str,
) -> fmt::Result
    ensures { WritesOnOk W.write_str_gives f.old result (before.now ++ (decimal number ++ after.now)) f.new }
{
    write!(f, "{before}{number}{after}")
}

/// Why a line is refused, as a text behind the line's number.
fn script_cause(kind: ScriptKind) -> &'static str
    ensures { result.now ≡ codes ": " ++ script_cause kind }
{
    match kind {
        ScriptKind::Header => ": header",
        ScriptKind::Word => ": word",
        ScriptKind::Number => ": number",
        ScriptKind::Hex => ": hex",
        ScriptKind::Long => ": too long",
        ScriptKind::NoEnd => ": no end",
        ScriptKind::Many => ": too many lines",
    }
}

/// Why a record of a capture is refused, as a text behind the record's number.
fn capture_cause(kind: CaptureKind) -> &'static str
    ensures { result.now ≡ codes ": " ++ capture_cause kind }
{
    match kind {
        CaptureKind::Magic => ": magic",
        CaptureKind::Cut => ": cut off",
        CaptureKind::Version => ": version",
        CaptureKind::Length => ": length",
        CaptureKind::Interface => ": interface",
    }
}

/// Writes that there's no picture, and why.
fn write_no_picture<W: fmt::Write>(f: &mut fmt::Formatter<W>, why: NoPicture) -> fmt::Result
    ensures { WritesOnOk W.write_str_gives f.old result (codes "no picture: " ++ picture_cause why) f.new }
{
    match why {
        NoPicture::Taken(count) => {
            write_between(f, "no picture: ", u64::from(count), " buffers were taken")
        }
        NoPicture::NoneOf(count) => write_between(
            f,
            "no picture: none of ",
            u64::from(count),
            " buffers has one",
        ),
        NoPicture::NoLeader => f.write_str("no picture: no leader"),
        NoPicture::PixelFormat(code) => write!(f, "no picture: pixel format 0x{code:08x}"),
        NoPicture::NoPixels => f.write_str("no picture: no pixels"),
        NoPicture::PartBytes => f.write_str("no picture: rows of part bytes"),
    }
}
