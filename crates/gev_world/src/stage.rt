use camera_sim::Camera;
use control_client::Client;
use gev_frames::Lcg;
use lossy_queue::{LossyQueue, Rates};

/// All of a world but its host: the camera, the client, and the network between them.
#[derive(Drop)]
pub(crate) struct Stage {
    /// The seed of the images and of the network.
    pub seed: u64,
    /// How many frames the run asks for.
    pub frames: u32,
    /// How often the network loses, repeats and swaps, each in thousandths.
    pub rates: Rates,
    /// Whether the camera's frames are short ones.
    pub short: bool,
    /// The generator of both queues.
    pub generator: Lcg,
    /// What is on its way to the camera's control port.
    pub to_camera: LossyQueue,
    /// What is on its way to the client and to the host.
    pub to_host: LossyQueue,
    pub camera: Camera,
    pub client: Client,
    /// In milliseconds.
    pub moment: u64,
    /// How many commands of the setup were submitted.
    pub begun: u8,
    /// How many of them were acknowledged.
    pub done: u8,
    /// How many frames were made.
    pub made: u32,
    /// Whether the sending of frames ended for good.
    pub is_over: bool,
}
