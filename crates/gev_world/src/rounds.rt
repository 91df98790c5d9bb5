//! Rounds of a run: 10 ms each.

ghost use Rattle.std.specs.Prelude.{◌≡◌, ◌+◌, ◌<◌, ◌^◌, ◌&&◌, List, [], None, OnOk, IfOk};
ghost use Rattle.world_laws.specs.Receiver.{Receiver, soak_host};
ghost use Rattle.world_machine.specs.State.{World};
ghost use Rattle.world_machine.specs.HostActs.{HostAct, with_host_turn, with_host_round};
ghost use Rattle.gev_report.specs.SoakLine.{soak_line};
ghost use Rattle.world_machine.specs.Rounds.{is_nothing, is_done, numbers_of, closes, from_host, round};
ghost use Rattle.gev_world.specs.Seen.{run_of, IsBetween};
ghost use Rattle.gev_world.specs.Hosts.{Stands, HasWorld};
ghost use Rattle.gev_world.specs.Rounds.{is_sent_out, ComesToHost, EndsRound, hosted_round, hosted_acts};

use crate::camera_turn::{camera_turn, make};
use crate::client_turn::client_turn;
use crate::host_turn::{ask, host_turn};
use crate::run_end::{RunEnd, end_of};
use crate::stage::Stage;
use crate::takes::write_takes;
use crate::tools::Tools;
use control_client::SETUP_SIZE;
use gev_links::{Sink, write_all};
use gev_make::Stop;
use gev_report::{SoakNumbers, line_soak};
use gev_types::NoMemory;
use lossy_queue::LossyQueue;
use soak_receiver::SoakReceiver;
use std::alloc::Global;

/// How many milliseconds a round takes.
const ROUND_TIME: u64 = 10;

/// The turns before the host's. The end is one that the client was told.
fn come_to_host(
    alloc: Global,
    stage: &mut Stage,
    tools: &mut Tools,
) -> Result<Option<RunEnd>, NoMemory>
    requires between { IsBetween stage.old }
    requires time { stage.old.moment + ROUND_TIME < 2 ^ 64 }
    requires empty { tools.old.arriving ≡ [] }
    ensures comes { IfOk result (λ end. ComesToHost stage.old end stage.new) }
    ensures empty { OnOk result (tools.new.arriving ≡ []) }
{
    stage.moment += ROUND_TIME;
    let outcome = client_turn(stage)?;
    if let Some(end) = end_of(outcome) {
        return Ok(Some(end));
    }
    camera_turn(stage, &mut tools.rooms, &mut tools.arriving)?;
    make(alloc, stage, &mut tools.rooms)?;
    Ok(None)
}

/// Whether the setup is done, and all frames were sent or their sending ended.
fn is_sent_out(stage: &Stage) -> bool
    ensures { result ≡ is_sent_out stage.now }
{
    stage.done == SETUP_SIZE && (stage.frames <= stage.made || stage.is_over)
}

fn is_nothing(queue: &LossyQueue) -> bool
    ensures { result ≡ is_nothing queue.now }
{
    queue.is_empty()
}

/// Whether nothing is on its way.
fn is_quiet(stage: &Stage) -> bool
    ensures { result ≡ (is_nothing stage.now.to_camera && is_nothing stage.now.to_host) }
{
    is_nothing(&stage.to_camera) && is_nothing(&stage.to_host)
}

fn are_all(sent: bool, idle: bool, quiet: bool) -> bool
    ensures { result ≡ (sent && idle && quiet) }
{
    sent && idle && quiet
}

/// Whether the run is done: all was sent, no block is open, and nothing is on its way.
fn is_done(stage: &Stage, host: &SoakReceiver) -> bool
    ensures { (acts : List HostAct) (w : World Receiver) → Stands stage.now host.now acts w → result ≡ is_done (run_of stage.now) soak_host w }
{
    are_all(is_sent_out(stage), host.is_idle(), is_quiet(stage))
}

/// The numbers of the line that a run ends with.
fn last_numbers(stage: &Stage, host: &SoakReceiver) -> SoakNumbers
    ensures { (acts : List HostAct) (w : World Receiver) → Stands stage.now host.now acts w
        → result ≡ numbers_of stage.now.frames stage.now.camera.executed (soak_host.numbers w.host) }
{
    let counts = host.numbers();
    SoakNumbers {
        frames: u64::from(stage.frames),
        taken: counts.taken,
        complete: counts.complete,
        incomplete: counts.incomplete,
        underrun: counts.underrun,
        requests: counts.requests,
        commands: stage.camera.executed(),
    }
}

/// Makes a line of these numbers.
fn spell_last(alloc: Global, numbers: &SoakNumbers, text: &mut Vec<u8>) -> Result<(), NoMemory>
    ensures { OnOk result (text.new.items ≡ soak_line numbers.now) }
{
    text.clear();
    line_soak(alloc, numbers, text)
}

/// Ends the run where it's done, and writes its last line.
fn close<K: Sink>(
    alloc: Global,
    stage: &Stage,
    host: &SoakReceiver,
    text: &mut Vec<u8>,
    sink: &mut K,
) -> Result<Option<RunEnd>, Stop>
    ensures { (acts : List HostAct) (w : World Receiver) → Stands stage.now host.now acts w
        → EndsRound result (closes (run_of stage.now) soak_host w []) acts stage.now host.now (K.written sink.old) (K.written sink.new) (K.faults sink.old) (K.faults sink.new) }
{
    if !is_done(stage, host) {
        return Ok(None);
    }
    spell_last(alloc, &last_numbers(stage, host), text)?;
    write_all(sink, text.as_slice())?;
    Ok(Some(RunEnd::Done))
}

/// The rest of a round behind what reached the host: it asks again, its application takes, and the run may
/// be done.
fn finish_round<K: Sink>(
    alloc: Global,
    stage: &mut Stage,
    host: &mut SoakReceiver,
    tools: &mut Tools,
    sink: &mut K,
) -> Result<Option<RunEnd>, Stop>
    requires world { HasWorld stage.old host.old }
    ensures ends { (acts : List HostAct) (w : World Receiver) → Stands stage.old host.old acts w
        → EndsRound result (from_host (run_of stage.old) soak_host None w) (with_host_turn None w acts) stage.new host.new (K.written sink.old) (K.written sink.new) (K.faults sink.old) (K.faults sink.new) }
    ensures run { OnOk result (run_of stage.new ≡ run_of stage.old) }
    ensures between { IsBetween stage.old → OnOk result (IsBetween stage.new) }
    ensures empty { tools.new.arriving ≡ tools.old.arriving }
{
    match ask(stage, host, &mut tools.requests) {
        Ok(()) => {}
        Err(NoMemory) => return Err(Stop::NoMemory),
    }
    match write_takes(alloc, host, &mut tools.text, sink) {
        Ok(()) => close(alloc, stage, host, &mut tools.text, sink),
        Err(stop) => Err(stop),
    }
}

/// The rest of a round behind the camera's turn.
fn host_round<K: Sink>(
    alloc: Global,
    stage: &mut Stage,
    host: &mut SoakReceiver,
    tools: &mut Tools,
    sink: &mut K,
) -> Result<Option<RunEnd>, Stop>
    requires world { HasWorld stage.old host.old }
    requires empty { tools.old.arriving ≡ [] }
    ensures ends { (acts : List HostAct) (w : World Receiver) → Stands stage.old host.old acts w
        → EndsRound result (hosted_round (run_of stage.old) w) (hosted_acts w acts) stage.new host.new (K.written sink.old) (K.written sink.new) (K.faults sink.old) (K.faults sink.new) }
    ensures run { OnOk result (run_of stage.new ≡ run_of stage.old) }
    ensures between { IsBetween stage.old → OnOk result (IsBetween stage.new) }
    ensures empty { IfOk result (λ end. end ≡ None → tools.new.arriving ≡ []) }
{
    match host_turn(stage, host, &mut tools.arriving) {
        Some(end) => Ok(Some(end)),
        None => finish_round(alloc, stage, host, tools, sink),
    }
}

/// A round, and whether the run ends with it.
pub(crate) fn round<K: Sink>(
    alloc: Global,
    stage: &mut Stage,
    host: &mut SoakReceiver,
    tools: &mut Tools,
    sink: &mut K,
) -> Result<Option<RunEnd>, Stop>
    requires world { HasWorld stage.old host.old }
    requires between { IsBetween stage.old }
    requires time { stage.old.moment + ROUND_TIME < 2 ^ 64 }
    requires empty { tools.old.arriving ≡ [] }
    ensures ends { (acts : List HostAct) (w : World Receiver) → Stands stage.old host.old acts w
        → EndsRound result (round (run_of stage.old) soak_host w) (with_host_round (run_of stage.old) soak_host w acts) stage.new host.new (K.written sink.old) (K.written sink.new) (K.faults sink.old) (K.faults sink.new) }
    ensures run { OnOk result (run_of stage.new ≡ run_of stage.old) }
    ensures between { IfOk result (λ end. end ≡ None → IsBetween stage.new) }
    ensures empty { IfOk result (λ end. end ≡ None → tools.new.arriving ≡ []) }
{
    match come_to_host(alloc, stage, tools) {
        Ok(Some(end)) => Ok(Some(end)),
        Ok(None) => host_round(alloc, stage, host, tools, sink),
        Err(NoMemory) => Err(Stop::NoMemory),
    }
}
