//! How a run ends, of several causes.

ghost use Rattle.std.specs.Prelude.{◌≡◌};
ghost use Rattle.gev_receive.specs.Answers.{control_status, leader_status, reader_status, handed_status, leave_status, rank, weightier, is_lost, is_leader_lost, is_reader_lost, is_told};

use camera_control::ControlEnd;
use camera_reader::ReaderEnd;
use first_leader::NoLeader;
use frame_writing::HandedEnd;
use gev_status::Status;

/// The answer by how control ended, behind so many frames.
pub fn control_status(cause: ControlEnd, frames: u32) -> Status
    ensures { result ≡ control_status cause frames }
{
    match cause {
        ControlEnd::LinkFault => Status::LinkFault,
        ControlEnd::NoAnswer(req) => Status::NoAnswer { req },
        ControlEnd::RefusedAt { register, status } => Status::RefusedAt { register, status },
        ControlEnd::Controlled => Status::Controlled,
        ControlEnd::ControlLost => Status::ControlLost { frames },
    }
}

/// The answer where no leader came.
pub fn leader_status(why: NoLeader) -> Status
    ensures { result ≡ leader_status why }
{
    match why {
        NoLeader::Silent => Status::Silent { frames: 0 },
        NoLeader::InputEnded => Status::Done,
        NoLeader::Ended(cause) => control_status(cause, 0),
    }
}

/// The answer by how the reader ended, where so many of the frames that were asked for were handed out.
pub fn reader_status(end: ReaderEnd, frames: u32, taken: u32) -> Status
    ensures { result ≡ reader_status end frames taken }
{
    match end {
        ReaderEnd::Stopped => Status::Done,
        ReaderEnd::Silent => {
            if taken == frames {
                Status::Done
            } else {
                Status::Silent { frames: taken }
            }
        }
        ReaderEnd::Ended(cause) => control_status(cause, taken),
    }
}

/// The answer by how the application ended.
pub fn handed_status(end: HandedEnd) -> Status
    ensures { result ≡ handed_status end }
{
    match end {
        HandedEnd::Enough => Status::Done,
        HandedEnd::Over => Status::Done,
        HandedEnd::InputEnded => Status::Done,
        HandedEnd::WriteFault => Status::WriteFault,
        HandedEnd::NoMemory => Status::NoMemory,
    }
}

/// The answer by how the camera was let go.
pub fn leave_status(left: Result<(), ControlEnd>, frames: u32) -> Status
    ensures { result ≡ leave_status left frames }
{
    match left {
        Ok(()) => Status::Done,
        Err(cause) => control_status(cause, frames),
    }
}

/// The place of an answer among those of which the first goes before the others.
fn rank(status: Status) -> u8
    ensures { result ≡ rank status }
{
    match status {
        Status::LinkFault => 0,
        Status::NoMemory => 1,
        Status::WriteFault => 2,
        Status::NoPicture { .. } => 3,
        Status::ControlLost { .. } => 4,
        Status::NoAnswer { .. } => 5,
        Status::RefusedAt { .. } => 6,
        Status::Controlled => 7,
        Status::Silent { .. } => 8,
        Status::Done => 9,
        Status::Usage { .. } => 10,
        Status::BadScript { .. } => 10,
        Status::BadCapture { .. } => 10,
        Status::NoDescription => 10,
        Status::NoDatagram { .. } => 10,
        Status::Refused { .. } => 10,
        Status::TurnsSpent { .. } => 10,
        Status::ReadFault => 10,
    }
}

/// Which of two answers is given: of two with the same place the first.
pub fn weightier(first: Status, later: Status) -> Status
    ensures { result ≡ weightier first later }
{
    if rank(later) < rank(first) {
        later
    } else {
        first
    }
}

/// Whether the camera let its controller go.
pub fn is_lost(cause: ControlEnd) -> bool
    ensures { result ≡ is_lost cause }
{
    match cause {
        ControlEnd::LinkFault => false,
        ControlEnd::NoAnswer(_) => false,
        ControlEnd::RefusedAt { .. } => false,
        ControlEnd::Controlled => false,
        ControlEnd::ControlLost => true,
    }
}

/// Whether it did so while the first leader was waited for.
pub fn is_leader_lost(why: NoLeader) -> bool
    ensures { result ≡ is_leader_lost why }
{
    match why {
        NoLeader::Silent => false,
        NoLeader::InputEnded => false,
        NoLeader::Ended(cause) => is_lost(cause),
    }
}

/// Whether it did so while the reader ran.
pub fn is_reader_lost(end: ReaderEnd) -> bool
    ensures { result ≡ is_reader_lost end }
{
    match end {
        ReaderEnd::Stopped => false,
        ReaderEnd::Silent => false,
        ReaderEnd::Ended(cause) => is_lost(cause),
    }
}

/// Whether the last line is written with this answer.
pub fn is_told(status: Status) -> bool
    ensures { result ≡ is_told status }
{
    match status {
        Status::Done => true,
        Status::Usage { .. } => false,
        Status::BadScript { .. } => false,
        Status::ReadFault => false,
        Status::WriteFault => false,
        Status::LinkFault => false,
        Status::NoMemory => false,
        Status::NoAnswer { .. } => true,
        Status::Refused { .. } => false,
        Status::TurnsSpent { .. } => false,
        Status::BadCapture { .. } => false,
        Status::NoPicture { .. } => false,
        Status::Silent { .. } => true,
        Status::Controlled => true,
        Status::NoDescription => false,
        Status::ControlLost { .. } => true,
        Status::NoDatagram { .. } => false,
        Status::RefusedAt { .. } => true,
    }
}
