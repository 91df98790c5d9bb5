//! A world, and its run.

ghost use Rattle.std.specs.Prelude.{◌≡◌, [], IfOk};
ghost use Rattle.gev_world.specs.Seen.{run_of};
ghost use Rattle.gev_world.specs.Runs.{IsNew, IsNewStage, BeginsRun, answer_of, stopped_by, RunsSoak};

use crate::camera_turn::Rooms;
use crate::rounds::round;
use crate::run_end::RunEnd;
use crate::soak_end::SoakEnd;
use crate::stage::Stage;
use crate::tools::Tools;
use camera_sim::{Camera, MESSAGE_SIZE, PACKET_ROOM};
use control_client::Client;
use gev_frames::Lcg;
use gev_links::Sink;
use gev_make::{IMAGE_SHAPE, Stop};
use gev_types::NoMemory;
use lossy_queue::{LossyQueue, Rates};
use soak_receiver::SoakReceiver;
use std::alloc::Global;

/// How many frames the camera holds for sending their packets again.
const STORE_ROOM: u8 = 4;

/// Camera, network, client and host as one machine.
#[derive(Drop)]
pub struct World {
    stage: Stage,
    host: SoakReceiver,
    tools: Tools,
}

/// All but the host, at the start.
fn new_stage(
    alloc: Global,
    seed: u64,
    frames: u32,
    rates: Rates,
    short: bool,
) -> Result<Stage, NoMemory>
    ensures { IfOk result (λ stage. IsNewStage (record { seed = seed; frames = frames; rates = rates; short = short }) stage) }
{
    let mut camera = Camera::new(alloc, seed, IMAGE_SHAPE, STORE_ROOM)?;
    camera.set_short(short);
    Ok(Stage {
        seed,
        frames,
        rates,
        short,
        generator: Lcg::new(seed),
        to_camera: LossyQueue::new(alloc),
        to_host: LossyQueue::new(alloc),
        camera,
        client: Client::new(),
        moment: 0,
        begun: 0,
        done: 0,
        made: 0,
        is_over: false,
    })
}

fn new_tools(alloc: Global) -> Tools
    ensures { result.arriving ≡ [] }
{
    Tools {
        rooms: Rooms {
            answer: [0; MESSAGE_SIZE],
            packet: [0; PACKET_ROOM],
        },
        arriving: LossyQueue::new(alloc),
        requests: Vec::new(alloc),
        text: Vec::new(alloc),
    }
}

/// The answer where the run came to its end.
fn ended(end: RunEnd) -> SoakEnd
    ensures { result ≡ answer_of end }
{
    match end {
        RunEnd::Done => SoakEnd::Done,
        RunEnd::NoAnswer(req) => SoakEnd::NoAnswer(req),
        RunEnd::Refused(status) => SoakEnd::Refused(status),
    }
}

/// The answer where its text couldn't be written.
fn stopped(stop: Stop) -> SoakEnd
    ensures { result ≡ stopped_by stop }
{
    match stop {
        Stop::WriteFault => SoakEnd::WriteFault,
        Stop::NoMemory => SoakEnd::NoMemory,
    }
}

impl World {
    /// A world in which nothing happened yet. Images and network are those of the seed; of 1000
    /// datagrams so many are lost, repeated, and swapped with the one behind. In a short world the image
    /// of block `b` has `b % 8` lines fewer than its leader announces.
    pub fn new(
        alloc: Global,
        seed: u64,
        frames: u32,
        loss: u16,
        repeat: u16,
        swap: u16,
        short: bool,
    ) -> Result<World, NoMemory>
        ensures { IfOk result (λ world. BeginsRun
            (record { seed = seed; frames = frames; rates = record { loss = loss; repeat = repeat; swap = swap }; short = short }) world) }
    {
        let rates = Rates { loss, repeat, swap };
        let stage = new_stage(alloc, seed, frames, rates, short)?;
        let host = SoakReceiver::new(alloc)?;
        Ok(World {
            stage,
            host,
            tools: new_tools(alloc),
        })
    }

    /// Runs the world from its start to its end, and writes each line as it comes.
    pub fn run<K: Sink>(&mut self, alloc: Global, sink: &mut K) -> SoakEnd
        requires new { IsNew self.old }
        ensures { RunsSoak result (run_of self.old.stage) (K.written sink.old) (K.written sink.new) (K.faults sink.old) (K.faults sink.new) }
    {
        'rounds: loop {
            match round(
                alloc,
                &mut self.stage,
                &mut self.host,
                &mut self.tools,
                sink,
            ) {
                Ok(None) => continue 'rounds,
                Ok(Some(end)) => return ended(end),
                Err(stop) => return stopped(stop),
            }
        }
    }
}
