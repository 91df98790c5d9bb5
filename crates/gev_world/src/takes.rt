//! What the application takes in a round.

ghost use Rattle.std.specs.Prelude.{List, ◌++◌, OnOk};
ghost use Rattle.gev_script.specs.Lines.{ScriptLine};
ghost use Rattle.world_laws.specs.Receiver.{Receiver, soak_host, waiting};
ghost use Rattle.soak_receiver.specs.Standing.{HostStands};
ghost use Rattle.gev_world.specs.Rounds.{Wrote};
ghost use Rattle.world_laws.specs.SoakApplication.{soak_takes};
ghost use Rattle.gev_world.specs.Takes.{HasReceiver, WritesTake};

use gev_links::{Sink, write_all};
use gev_make::Stop;
use soak_receiver::SoakReceiver;
use std::alloc::Global;

/// Takes the output's first buffer and writes its line, and tells whether there was one.
fn write_take<K: Sink>(
    alloc: Global,
    host: &mut SoakReceiver,
    text: &mut Vec<u8>,
    sink: &mut K,
) -> Result<bool, Stop>
    ensures { (lines : List ScriptLine) (r : Receiver) → HostStands host.old lines r
        → WritesTake result lines r host.new (K.written sink.old) (K.written sink.new) (K.faults sink.old) (K.faults sink.new) }
{
    text.clear();
    let took = host.take(alloc, text)?;
    write_all(sink, text.as_slice())?;
    Ok(took)
}

/// Takes until the output is empty, and writes each take line. It stops where the sink fails or memory
/// runs out: what was written then is a front of the lines.
pub(crate) fn write_takes<K: Sink>(
    alloc: Global,
    host: &mut SoakReceiver,
    text: &mut Vec<u8>,
    sink: &mut K,
) -> Result<(), Stop>
    requires hosted { HasReceiver host.old }
    ensures taken { (lines : List ScriptLine) (r : Receiver) → HostStands host.old lines r
        → OnOk result (HostStands host.new (lines ++ soak_takes (waiting r.board) r) (soak_host.takes r)) }
    ensures wrote { (lines : List ScriptLine) (r : Receiver) → HostStands host.old lines r
        → Wrote result (K.written sink.old) (K.written sink.new) (K.faults sink.old) (K.faults sink.new) (soak_host.lines r) }
{
    'takes: loop {
        match write_take(alloc, host, text, sink) {
            Ok(true) => continue 'takes,
            Ok(false) => return Ok(()),
            Err(stop) => return Err(stop),
        }
    }
}
