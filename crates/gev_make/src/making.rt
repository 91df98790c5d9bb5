ghost use Rattle.std.specs.Prelude.{◌≡◌, ◌≢◌, ◌≤◌};
ghost use Rattle.gev_links.specs.Faults.{Rose};
ghost use Rattle.gev_links.specs.Told.{Appends, WritesFront};
ghost use Rattle.gev_make.specs.MakeText.{make_text};
ghost use Rattle.gev_make.specs.Writing.{Writes};

use crate::blocks::write_blocks;
use crate::lines::{LINE_SIZE, write_closing, write_opening};
use crate::make_end::MakeEnd;
use crate::network::new_network;
use crate::stop::Stop;
use gev_links::Sink;
use lossy_queue::Rates;
use std::alloc::Global;

/// Writes the whole script, through one text that holds a line at a time.
fn write_script<K: Sink>(
    alloc: Global,
    seed: u64,
    frames: u32,
    rates: Rates,
    sink: &mut K,
) -> Result<(), Stop>
    ensures { Writes result (K.written sink.old) (K.written sink.new) (K.faults sink.old) (K.faults sink.new)
        (make_text seed frames rates) }
{
    let mut text = Vec::new(alloc);
    reserve_line(&mut text)?;
    let mut network = new_network(alloc, seed, rates);
    write_opening(alloc, &mut text, sink)?;
    write_blocks(alloc, seed, frames, &mut network, &mut text, sink)?;
    write_closing(alloc, &mut text, sink)
}

/// Makes room for the longest line.
fn reserve_line(text: &mut Vec<u8>) -> Result<(), gev_types::NoMemory> {
    text.reserve(LINE_SIZE)?;
    Ok(())
}

/// Writes the replay script of a seed to the sink: the packets of test images in the blocks from 1 to
/// `frames`, as they come out of a network with these rates, whose generator starts at the seed too.
///
/// The script has a receiver with four buffers. After each block 250 milliseconds have gone by, and a
/// buffer is taken. Memory is held for a line, an image, and the datagrams of one block that are on
/// their way. After a fault, or without memory, a front of the script was written.
#[tactic(auto, using(crate::proofs::Texts::front_whole))]
pub fn make<K: Sink>(alloc: Global, seed: u64, frames: u32, rates: Rates, sink: &mut K) -> MakeEnd
    ensures done { result ≡ MakeEnd.Done → Appends (K.written sink.old) (K.written sink.new) (make_text seed frames rates) }
    ensures front { WritesFront (K.written sink.old) (K.written sink.new) (make_text seed frames rates) }
    ensures failed { result ≡ MakeEnd.WriteFault → Rose (K.faults sink.old) (K.faults sink.new) }
    ensures steady { result ≢ MakeEnd.WriteFault → K.faults sink.new ≡ K.faults sink.old }
{
    match write_script(alloc, seed, frames, rates, sink) {
        Ok(()) => MakeEnd::Done,
        Err(Stop::WriteFault) => MakeEnd::WriteFault,
        Err(Stop::NoMemory) => MakeEnd::NoMemory,
    }
}
