//! What the workers of a live run work with, beside what is of the outside.

ghost use Rattle.std.specs.Prelude.{◌≡◌, IfOk, vec_capacity};
ghost use Rattle.gev_live.specs.Told.{live_shape, live_config, live_camera, IsNewReceiver, AreNew};

use acq_core::Acq;
use acquisition_machine::AcqConfig;
use camera_sim::Camera;
use gev_acq::Turn;
use gev_types::{NoMemory, Shape};
use std::alloc::Global;

// How many frames a camera keeps, whose packets it can send again.
const KEPT_FRAMES: u8 = 4;

// The images of a live run's camera: 640 x 480 pixels of one byte each (Mono8).
fn shape() -> Shape
    ensures { result ≡ live_shape }
{
    Shape {
        pixel: 0x0108_0001,
        size_x: 640,
        size_y: 480,
    }
}

// How a live run receives.
fn config() -> AcqConfig
    ensures { result ≡ live_config }
{
    AcqConfig {
        p: 1452,
        window: 2,
        timeout: 200,
        age: 20,
        rounds: 3,
    }
}

/// A live run's camera, which made no frame yet.
pub(crate) fn make_camera(alloc: Global, seed: u64) -> Result<Camera, NoMemory>
    ensures { IfOk result (λ camera. camera ≡ live_camera seed) }
{
    Camera::new(alloc, seed, shape(), KEPT_FRAMES)
}

/// A receiver of a live run, which took nothing yet.
pub(crate) fn make_receiver(alloc: Global) -> Result<Acq, NoMemory>
    ensures { IfOk result (λ acq. IsNewReceiver acq) }
{
    Acq::new(alloc, config())
}

/// Takes all the memory that the reader of a run with one lane will use, and that of an empty camera: the camera, the
/// receiver and the journal.
pub(crate) fn make_tools(
    alloc: Global,
    seed: u64,
    turns: u64,
) -> Result<(Camera, Acq, Vec<Turn>), NoMemory>
    ensures { IfOk result (λ made. AreNew seed turns made.0 made.1 made.2.items (vec_capacity made.2)) }
{
    let camera = make_camera(alloc, seed)?;
    let acq = make_receiver(alloc)?;
    let journal = Vec::with_capacity(alloc, turns as usize)?;
    Ok((camera, acq, journal))
}
