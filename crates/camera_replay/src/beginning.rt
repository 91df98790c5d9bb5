//! The first line of a camera script.

ghost use Rattle.std.specs.Prelude.{◌≡◌, ◌≤◌, length, IfOk, MatchResult};
ghost use Rattle.script_runs.specs.Runs.{IfRefused};
ghost use Rattle.camera_replay.specs.Serving.{opening};
ghost use Rattle.camera_replay.specs.Running.{serving_of};
ghost use Rattle.camera_replay.specs.Lines.{Begins, IsNoHeader};

use crate::running::Running;
use camera_sim::Camera;
use gev_script::{Line, ScriptKind, parse_line};
use gev_types::{NoMemory, Shape};
use script_runs::Stop;
use std::alloc::Global;

/// The images of a script's camera: 64 x 48 pixels of 8 bits (Mono8).
const SHAPE: Shape = Shape {
    pixel: 0x0108_0001,
    size_x: 64,
    size_y: 48,
};

/// How many frames a script's camera can send again.
const HELD_FRAMES: u8 = 4;

/// What stands behind the header. The camera takes its memory here.
fn begin(alloc: Global) -> Result<Running, NoMemory>
    ensures { IfOk result (λ r. serving_of r ≡ opening) }
{
    let camera = Camera::new(alloc, 0, SHAPE, HELD_FRAMES)?;
    Ok(Running { camera, moment: 0 })
}

/// Runs the first line, which has to be the header.
pub(crate) fn first_line(alloc: Global, line: &[u8]) -> Result<Running, Stop>
    requires short { length line.now ≤ 20000 }
    ensures { MatchResult result (λ r. Begins line.now r) (λ stop. IfRefused stop (λ kind. IsNoHeader line.now kind)) }
{
    match parse_line(line) {
        Ok(Line::CameraHeader) => match begin(alloc) {
            Ok(running) => Ok(running),
            Err(NoMemory) => Err(Stop::NoMemory),
        },
        _ => Err(Stop::Refused(ScriptKind::Header)),
    }
}
