//! The client's turn of a round: the setup of the stream, heartbeats, and what there is to send.

ghost use Rattle.std.specs.Prelude.{◌≡◌, ◌≤◌, IfOk, OnOk};
ghost use Rattle.client_machine.specs.Machine.{ticked};
ghost use Rattle.world_machine.specs.ClientTurn.{SETUP_SIZE, begins, client_turn, end_of};
ghost use Rattle.gev_world.specs.Seen.{Does};
ghost use Rattle.gev_world.specs.Turns.{sends_waiting, ClientDoes};

use crate::stage::Stage;
use client_machine::Outcome;
use control_client::{SETUP_SIZE, setup_write};
use gev_types::{NoMemory, Peer};
use gvcp_wire::Command;
use lossy_queue::Channel;

/// Where the client wants the stream: on this machine.
const STREAM: Peer = Peer {
    address: 0x7F00_0001,
    port: 49_152,
};

/// An idle client is given the next command of the setup, if one is left.
fn begin(stage: &mut Stage)
    requires { stage.old.begun ≤ SETUP_SIZE }
    ensures does { Does stage.old (λ run w. begins w) stage.new }
    ensures few { stage.new.begun ≤ SETUP_SIZE }
{
    if !stage.client.is_idle() || stage.begun == SETUP_SIZE {
        return;
    }
    let bytes = setup_write(STREAM, stage.begun);
    // An idle client doesn't refuse it.
    let _ = stage
        .client
        .submit(&Command::WriteReg(&bytes), stage.moment);
    stage.begun += 1;
}

/// The client ticks, which may submit a heartbeat.
fn tick(stage: &mut Stage) -> Outcome
    ensures told { result ≡ (ticked stage.old.client stage.old.moment).outcome }
    ensures does { Does stage.old (λ run w. record w { client = (ticked w.client w.moment).client }) stage.new }
    ensures begun { stage.new.begun ≡ stage.old.begun }
{
    stage.client.tick(stage.moment)
}

/// What the client has to send is put into the camera's queue.
fn send(stage: &mut Stage) -> Result<(), NoMemory>
    ensures does { OnOk result (Does stage.old sends_waiting stage.new) }
    ensures begun { stage.new.begun ≡ stage.old.begun }
{
    if let Some(bytes) = stage.client.to_send() {
        stage
            .to_camera
            .put(stage.rates, &mut stage.generator, Channel::Control, bytes)?;
    }
    Ok(())
}

/// The client's turn, and what it was told.
pub(crate) fn client_turn(stage: &mut Stage) -> Result<Outcome, NoMemory>
    requires { stage.old.begun ≤ SETUP_SIZE }
    ensures does { IfOk result (λ outcome. ClientDoes stage.old outcome stage.new) }
    ensures few { stage.new.begun ≤ SETUP_SIZE }
{
    begin(stage);
    let outcome = tick(stage);
    send(stage)?;
    Ok(outcome)
}
