//! Datagrams on their way.

ghost use Rattle.std.specs.Prelude.{◌≡◌, OnOk};
ghost use Rattle.lossy_queue.specs.declared.datagram.Channel.TheVariants.{Control, Stream};
ghost use Rattle.world_machine.specs.Queues.{to_camera, to_host};
ghost use Rattle.gev_world.specs.Seen.{Does};

use crate::stage::Stage;
use gev_types::NoMemory;
use lossy_queue::Channel;

/// Puts a command into the camera's queue.
pub(crate) fn put_to_camera(stage: &mut Stage, bytes: &[u8]) -> Result<(), NoMemory>
    ensures { OnOk result (Does stage.old (λ run w. to_camera run w bytes.now) stage.new) }
{
    stage
        .to_camera
        .put(stage.rates, &mut stage.generator, Channel::Control, bytes)
}

/// Puts an acknowledge into the host's queue.
pub(crate) fn put_ack(stage: &mut Stage, bytes: &[u8]) -> Result<(), NoMemory>
    ensures { OnOk result (Does stage.old (λ run w. to_host run w (record { channel = Control; bytes = bytes.now })) stage.new) }
{
    stage
        .to_host
        .put(stage.rates, &mut stage.generator, Channel::Control, bytes)
}

/// Puts a packet into the host's queue.
pub(crate) fn put_packet(stage: &mut Stage, bytes: &[u8]) -> Result<(), NoMemory>
    ensures { OnOk result (Does stage.old (λ run w. to_host run w (record { channel = Stream; bytes = bytes.now })) stage.new) }
{
    stage
        .to_host
        .put(stage.rates, &mut stage.generator, Channel::Stream, bytes)
}
