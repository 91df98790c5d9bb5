//! The answer of a live run.

ghost use Rattle.std.specs.Prelude.{◌≡◌};
ghost use Rattle.gev_live.specs.Endings.{taken_of, read_status, application_status, camera_status, status_by, is_told};

use gev_control::AcqEnd;
use gev_serve::ServeEnd;
use gev_status::Status;
use gev_types::NoMemory;

// The answer by the reader's end, where no link failed and memory was there.
fn read_status(end: AcqEnd, frames: u32, turns: u64, taken: u32) -> Status
    ensures { result ≡ read_status end frames turns taken }
{
    match end {
        // Only the application stops a run in which nothing failed, when it has taken all frames.
        AcqEnd::Stopped => {
            if taken == frames {
                Status::Done
            } else {
                Status::NoMemory
            }
        }
        AcqEnd::Spent => {
            if taken == frames {
                Status::Done
            } else {
                Status::TurnsSpent {
                    turns,
                    frames: taken,
                }
            }
        }
        AcqEnd::Fault => Status::LinkFault,
        AcqEnd::NoAnswer(req) => Status::NoAnswer { req },
        AcqEnd::Refused(status) => Status::Refused { status },
    }
}

// The same, by the application's answer too.
fn application_status(
    end: AcqEnd,
    frames: u32,
    turns: u64,
    answer: &Result<u32, NoMemory>,
) -> Status
    ensures { result ≡ application_status end frames turns answer.now }
{
    match answer {
        Ok(taken) => read_status(end, frames, turns, *taken),
        Err(_) => Status::NoMemory,
    }
}

// The same, by the camera's end too.
fn camera_status(
    served: ServeEnd,
    end: AcqEnd,
    frames: u32,
    turns: u64,
    answer: &Result<u32, NoMemory>,
) -> Status
    ensures { result ≡ camera_status served end frames turns answer.now }
{
    match served {
        ServeEnd::Stopped => application_status(end, frames, turns, answer),
        ServeEnd::Fault => Status::LinkFault,
        ServeEnd::NoMemory => Status::NoMemory,
        ServeEnd::Spent => application_status(end, frames, turns, answer),
    }
}

/// The answer of a live run whose workers ended so: a link's failure (`LinkFault`) goes first, then want of memory
/// (`NoMemory`), then a command without answer (`NoAnswer`) or one that was refused (`Refused`). Where none of these
/// happened it is `Done` if all `frames` were taken, and else `TurnsSpent` where the reader's turns ran out, or
/// `NoMemory` where the reader was stopped before.
pub fn status_by(
    served: ServeEnd,
    end: AcqEnd,
    frames: u32,
    turns: u64,
    answer: &Result<u32, NoMemory>,
) -> Status
    ensures { result ≡ status_by served end frames turns answer.now }
{
    match end {
        AcqEnd::Stopped => camera_status(served, AcqEnd::Stopped, frames, turns, answer),
        AcqEnd::Spent => camera_status(served, AcqEnd::Spent, frames, turns, answer),
        AcqEnd::Fault => Status::LinkFault,
        AcqEnd::NoAnswer(req) => {
            camera_status(served, AcqEnd::NoAnswer(req), frames, turns, answer)
        }
        AcqEnd::Refused(status) => {
            camera_status(served, AcqEnd::Refused(status), frames, turns, answer)
        }
    }
}

/// How many buffers were taken; 0 where memory was wanting.
pub fn taken_of(answer: &Result<u32, NoMemory>) -> u32
    ensures { result ≡ taken_of answer.now }
{
    match answer {
        Ok(taken) => *taken,
        Err(_) => 0,
    }
}

/// Whether the lines are written with this answer.
pub fn is_told(status: Status) -> bool
    ensures { result ≡ is_told status }
{
    match status {
        Status::Done => true,
        Status::NoAnswer { .. } => true,
        Status::Refused { .. } => true,
        Status::TurnsSpent { .. } => true,
        Status::Usage { .. } => false,
        Status::BadScript { .. } => false,
        Status::BadCapture { .. } => false,
        Status::NoPicture { .. } => false,
        Status::Silent { .. } => false,
        Status::Controlled => false,
        Status::NoDescription => false,
        Status::ControlLost { .. } => false,
        Status::NoDatagram { .. } => false,
        Status::RefusedAt { .. } => false,
        Status::ReadFault => false,
        Status::WriteFault => false,
        Status::LinkFault => false,
        Status::NoMemory => false,
    }
}
