ghost use Rattle.std.specs.Prelude.{◌≡◌, ◌+◌, ◌≤◌, [], OnOk};
ghost use Rattle.gev_make.specs.MakeText.{block_packets, block_lines, text_of};
ghost use Rattle.gev_make.specs.Network.{all_carried, emptied};
ghost use Rattle.gev_make.specs.Writing.{Writes};

use crate::lines::{write_datagrams, write_turn};
use crate::network::Network;
use crate::packets::carry_frame;
use crate::stop::Stop;
use gev_frames::frame_of;
use gev_links::Sink;
use gev_types::{NoMemory, Shape};
use std::alloc::Global;

/// The images: 64 columns and 48 lines of Mono8.
pub const IMAGE_SHAPE: Shape = Shape {
    pixel: 0x0108_0001,
    size_x: 64,
    size_y: 48,
};

/// Puts the packets of a block into the network.
fn carry_block(alloc: Global, network: &mut Network, seed: u64, block: u32) -> Result<(), NoMemory>
    requires { 1 ≤ block }
    ensures { OnOk result (network.new ≡ all_carried network.old (block_packets seed block)) }
{
    let frame = frame_of(alloc, seed, u64::from(block), IMAGE_SHAPE)?;
    carry_frame(network, &frame)
}

/// Writes the lines of a block.
fn write_block<K: Sink>(
    alloc: Global,
    seed: u64,
    block: u32,
    network: &mut Network,
    text: &mut Vec<u8>,
    sink: &mut K,
) -> Result<(), Stop>
    requires block { 1 ≤ block }
    requires empty { network.old.queue ≡ [] }
    ensures written { Writes result (K.written sink.old) (K.written sink.new) (K.faults sink.old) (K.faults sink.new)
        (text_of (block_lines network.old seed block 1)) }
    ensures emptied { OnOk result (network.new ≡ emptied (all_carried network.old (block_packets seed block))) }
{
    carry_block(alloc, network, seed, block)?;
    write_datagrams(alloc, &mut network.queue, text, sink)?;
    write_turn(alloc, block, text, sink)
}

/// Writes the lines of all blocks, from block 1 on.
pub(crate) fn write_blocks<K: Sink>(
    alloc: Global,
    seed: u64,
    frames: u32,
    network: &mut Network,
    text: &mut Vec<u8>,
    sink: &mut K,
) -> Result<(), Stop>
    requires { network.old.queue ≡ [] }
    ensures { Writes result (K.written sink.old) (K.written sink.new) (K.faults sink.old) (K.faults sink.new)
        (text_of (block_lines network.old seed 1 frames)) }
{
    for made in 0..frames {
        write_block(alloc, seed, made + 1, network, text, sink)?;
    }
    Ok(())
}
