use lossy_queue::Rates;
use script_image::Wanted;

/// What the words of the command line ask for.
#[derive(Clone, Copy, Debug, PartialEq, Eq)]
pub enum Command {
    /// Run a replay script, and write its report.
    Replay,
    /// Run a replay script, and write its report with notes: which frames were lost, why each incomplete one is as it
    /// is, and what became of each datagram that is in no image.
    Explain,
    /// Write pictures of buffers that a replay script takes.
    Image {
        /// Which of the buffers that its `take` lines get: one by its number, from 1, or all.
        wanted: Wanted,
    },
    /// List the image streams in a capture.
    Streams,
    /// Write a replay script of the datagrams to one port of a capture.
    Capture {
        /// The port, from 1 to 65,535.
        port: u16,
        /// The most bytes of a payload, from 528 to 8964.
        p: u32,
        /// The bytes of each buffer of the script, from 1 to 67,108,864.
        bytes: u32,
    },
    /// Run a camera script, and write what the camera answers.
    Camera,
    /// Write the replay script of a seed.
    Make {
        /// The seed of the images and of the network.
        seed: u64,
        /// How many blocks the script has, from 0 to 100,000.
        frames: u32,
        /// How often the network loses, repeats and swaps datagrams, each from 0 to 1,000 in thousandths.
        rates: Rates,
    },
    /// Run camera, network and host as one machine, and write what the host takes.
    Soak {
        /// The seed of the images and of the network.
        seed: u64,
        /// How many frames the camera sends, from 0 to 100,000.
        frames: u32,
        /// How often the network loses, repeats and swaps datagrams, each from 0 to 1,000 in thousandths.
        rates: Rates,
        /// Whether the images are short ones.
        short: bool,
    },
}
