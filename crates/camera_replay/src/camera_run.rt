//! The machine that runs camera scripts.

ghost use Rattle.std.specs.Prelude.{◌≡◌};
ghost use Rattle.camera_replay.specs.Standing.{Standing, first, CameraRuns, CameraRefuses, camera_verdict, IsBehind};
ghost use Rattle.camera_replay.specs.Judging.{lines_judged};
ghost use Rattle.camera_replay.specs.Running.{standing_of, IsKept};
ghost use Rattle.camera_replay.specs.Simulation.{Same, simulated, refused_alike};

use crate::beginning::first_line;
use crate::later::{read, run_said};
use crate::rooms::Rooms;
use crate::running::Running;
use gev_types::NoMemory;
use script_runs::{Headed, Machine, Modelled, Ran, Stop, run_headed};
use std::alloc::Global;
use std::marker::Model;

/// Runs a camera script, line by line.
///
/// The header makes the camera; each further line is given to it. Contracts see the plain state of the crate
/// `camera_replay`. Between two lines no packet waits.
#[derive(Drop)]
pub struct CameraRun {
    running: Option<Running>,
    rooms: Rooms,
}

impl Model for CameraRun {
    ghost use Rattle.camera_replay.specs.Standing.{Standing};
    ghost use Rattle.camera_replay.specs.Running.{standing_of, IsKept};

    ghost Value = { Standing };

    ghost view = { λ r. standing_of r.running };

    ghost invariant = { λ r. IsKept r.running };
}

impl CameraRun {
    /// A run before its first line. It takes no memory.
    pub fn new() -> CameraRun
        ensures { result ≡ first }
    {
        CameraRun {
            running: None,
            rooms: Rooms::new(),
        }
    }
}

impl Headed for Rooms {
    type Script = Running;

    type Came = Ran;

    ghost is_kept = { λ _. IsKept };

    ghost runs = { λ _ old n line ran out _ new. CameraRuns (standing_of old) n line ran out (standing_of new) };

    ghost refuses = { λ now. CameraRefuses (standing_of now) };

    fn begin(&self, alloc: Global, line: &[u8]) -> Result<(Running, Ran), Stop> {
        Ok((first_line(alloc, line)?, Ran::GoesOn))
    }

    fn go_on(
        &mut self,
        alloc: Global,
        running: &mut Running,
        _number: u32,
        line: &[u8],
        out: &mut Vec<u8>,
    ) -> Result<Ran, Stop> {
        match read(line) {
            Err(kind) => Err(Stop::Refused(kind)),
            Ok(says) => match run_said(alloc, running, self, says, out) {
                Ok(ran) => Ok(ran),
                Err(NoMemory) => Err(Stop::NoMemory),
            },
        }
    }
}

impl Machine for CameraRun {
    ghost runs = { CameraRuns };

    ghost refuses = { CameraRefuses };

    fn run_line(
        &mut self,
        alloc: Global,
        number: u32,
        line: &[u8],
        out: &mut Vec<u8>,
    ) -> Result<Ran, Stop> {
        run_headed(alloc, &mut self.rooms, &mut self.running, number, line, out)
    }
}

impl Modelled for CameraRun {
    ghost Plain = { Standing };

    ghost plain_runs = { CameraRuns };

    ghost plain_refuses = { CameraRefuses };

    ghost stands_for = { Same };

    ghost verdict = { camera_verdict };

    ghost behind = { IsBehind };

    ghost judges = { lines_judged };

    ghost simulates = { simulated };

    ghost refuses_alike = { refused_alike };
}
