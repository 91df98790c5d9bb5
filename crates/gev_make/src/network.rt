ghost use Rattle.std.specs.Prelude.{◌≡◌, OnOk};
ghost use Rattle.gev_make.specs.Network.{new_network, carried};

use gev_frames::Lcg;
use gev_types::NoMemory;
use lossy_queue::{Channel, LossyQueue, Rates};
use std::alloc::Global;

/// The network between the camera and the script: a queue, and the generator by which it loses,
/// repeats and swaps.
#[derive(Drop)]
pub(crate) struct Network {
    pub rates: Rates,
    pub generator: Lcg,
    pub queue: LossyQueue,
}

/// An empty network whose generator starts at the seed.
pub(crate) fn new_network(alloc: Global, seed: u64, rates: Rates) -> Network
    ensures { result ≡ new_network seed rates }
{
    Network {
        rates,
        generator: Lcg::new(seed),
        queue: LossyQueue::new(alloc),
    }
}

/// Puts a packet of the stream into the network, given as its bytes.
#[tactic(auto, unfolding(crate::specs::Network::carried))]
pub(crate) fn carry(network: &mut Network, bytes: &[u8]) -> Result<(), NoMemory>
    ensures { OnOk result (network.new ≡ carried network.old bytes.now) }
{
    network.queue.put(
        network.rates,
        &mut network.generator,
        Channel::Stream,
        bytes,
    )
}
