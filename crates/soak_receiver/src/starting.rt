//! The beginning of a host.

ghost use Rattle.std.specs.Prelude.{◌≡◌, ◌+◌, ◌<◌, IfOk, OnOk};
ghost use Rattle.world_laws.specs.Receiver.{soak_config};
ghost use Rattle.soak_receiver.specs.Stocking.{IsStocked, IsAnnounced, HasBegun};

use acquisition_machine::AcqConfig;
use gentl_types::BufferId;
use gev_types::NoMemory;
use script_replay::{Running, announce, begin, queue, start};
use std::alloc::Global;

/// How many buffers there are.
const BUFFERS: u8 = 4;

/// The size of each, in bytes: an image of 64 columns and 48 lines of Mono8.
const BUFFER_SIZE: u64 = 3072;

/// The most bytes of a payload.
const PAYLOAD_SIZE: u32 = 1452;

/// How the receiver of a soak run is set: `timeout` and `age` in milliseconds.
fn config() -> AcqConfig
    ensures { result ≡ soak_config }
{
    AcqConfig {
        p: PAYLOAD_SIZE,
        window: 2,
        timeout: 200,
        age: 20,
        rounds: 3,
    }
}

/// Announces a buffer at the first vacant place.
fn announce_buffer(alloc: Global, running: &mut Running, place: u8) -> Result<(), NoMemory>
    requires few { place < BUFFERS }
    requires stocked { IsStocked place running.old }
    ensures { OnOk result (IsAnnounced place running.new) }
{
    let mut said = Vec::new(alloc);
    announce(alloc, &mut running.board, BUFFER_SIZE, &mut said)
}

/// Queues the buffer that was announced.
fn queue_announced(alloc: Global, running: &mut Running, place: u8) -> Result<(), NoMemory>
    requires few { place < BUFFERS }
    requires announced { IsAnnounced place running.old }
    ensures { OnOk result (IsStocked (place + 1) running.new) }
{
    let mut said = Vec::new(alloc);
    let id = BufferId {
        place,
        generation: 1,
    };
    queue(alloc, &mut running.board, id, &mut said)
}

/// Starts the stream.
fn start_stream(alloc: Global, running: &mut Running) -> Result<(), NoMemory>
    requires { IsStocked BUFFERS running.old }
    ensures { OnOk result (HasBegun running.new) }
{
    let mut said = Vec::new(alloc);
    start(alloc, &mut running.board, &mut running.acq, &mut said)
}

/// Begins: four buffers are announced and queued, and the stream is started.
pub(crate) fn begin_host(alloc: Global) -> Result<Running, NoMemory>
    ensures { IfOk result (λ running. HasBegun running) }
{
    let mut running = begin(alloc, config())?;
    for place in 0..BUFFERS {
        announce_buffer(alloc, &mut running, place)?;
        queue_announced(alloc, &mut running, place)?;
    }
    start_stream(alloc, &mut running)?;
    Ok(running)
}
