//! The host's turn of a round: what reached it, and what it asks for again.

ghost use Rattle.std.specs.Prelude.{◌≡◌, [], None, OnOk};
ghost use Rattle.world_machine.specs.HostTurn.{done_after};
ghost use Rattle.world_machine.specs.Queues.{all_to_camera};
ghost use Rattle.gev_world.specs.Seen.{Does};
ghost use Rattle.gev_world.specs.Hosts.{Arrives, ArriveAll, HostTurns, Asks};

use crate::network::put_to_camera;
use crate::run_end::{RunEnd, end_of};
use crate::stage::Stage;
use client_machine::Outcome;
use gev_types::NoMemory;
use lossy_queue::{Channel, Datagram, LossyQueue};
use soak_receiver::SoakReceiver;

/// How many commands of the setup are acknowledged after this outcome.
fn count_done(stage: &mut Stage, outcome: Outcome)
    ensures { stage.new ≡ record stage.old { done = done_after outcome stage.old.begun stage.old.done } }
{
    if outcome == Outcome::Acked && stage.done < stage.begun {
        stage.done += 1;
    }
}

/// An acknowledge goes to the client, and a packet of the stream to the receiver.
fn arrive(stage: &mut Stage, host: &mut SoakReceiver, datagram: &Datagram) -> Option<RunEnd>
    ensures { Arrives stage.old host.old datagram.now result stage.new host.new }
{
    let bytes = datagram.bytes.as_slice();
    match datagram.channel {
        Channel::Control => {
            let outcome = stage.client.receive(bytes, stage.moment);
            count_done(stage, outcome);
            end_of(outcome)
        }
        Channel::Stream => {
            host.hear(bytes);
            None
        }
    }
}

/// What arrives, in order, up to the end of the run.
fn arrive_all(
    stage: &mut Stage,
    host: &mut SoakReceiver,
    arriving: &mut LossyQueue,
) -> Option<RunEnd>
    ensures arrived { ArriveAll stage.old host.old arriving.old result stage.new host.new }
    ensures emptied { result ≡ None → arriving.new ≡ [] }
{
    while let Some(datagram) = arriving.pop() {
        if let Some(end) = arrive(stage, host, &datagram) {
            return Some(end);
        }
    }
    None
}

/// What is on its way to the host reaches it, in order, through the empty queue `arriving`.
pub(crate) fn host_turn(
    stage: &mut Stage,
    host: &mut SoakReceiver,
    arriving: &mut LossyQueue,
) -> Option<RunEnd>
    requires { arriving.old ≡ [] }
    ensures turned { HostTurns stage.old host.old result stage.new host.new }
    ensures emptied { result ≡ None → arriving.new ≡ [] }
{
    std::mem::swap(&mut stage.to_host, arriving);
    arrive_all(stage, host, arriving)
}

/// Puts commands into the camera's queue, in order.
fn put_all(stage: &mut Stage, commands: &[[u8; 28]]) -> Result<(), NoMemory>
    ensures { OnOk result (Does stage.old (λ run w. all_to_camera run w commands.now) stage.new) }
{
    let mut rest = commands;
    while let [first, more @ ..] = rest {
        put_to_camera(stage, first)?;
        rest = more;
    }
    Ok(())
}

/// The receiver ticks, and what it asks for is put into the camera's queue.
pub(crate) fn ask(
    stage: &mut Stage,
    host: &mut SoakReceiver,
    requests: &mut Vec<[u8; 28]>,
) -> Result<(), NoMemory>
    ensures { OnOk result (Asks stage.old host.old stage.new host.new) }
{
    requests.clear();
    host.tick(stage.moment, requests)?;
    put_all(stage, requests.as_slice())
}
