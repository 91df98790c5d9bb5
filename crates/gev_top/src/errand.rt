use crate::command::Command;
use crate::live_numbers::LiveNumbers;
use camera_words::{RegisterWords, Settings, SimulateWords};

/// What the words of any command line ask for.
#[derive(Drop)]
pub enum Errand {
    /// A command that makes no use of ports.
    Plain(Command),
    /// A live run, and its lines.
    Live(LiveNumbers),
    /// A live run with one lane, and its script in place of its lines.
    Record(LiveNumbers),
    /// Which cameras answer at an IPv4 address, which may be a network's broadcast address.
    Discover(u32),
    /// The description that lies in the camera at an IPv4 address.
    Description(u32),
    /// A simulated camera at an IPv4 address of this machine.
    Simulate(SimulateWords),
    /// The frames of a camera on the network.
    Receive(Settings),
    /// Registers of a camera that are read and written by themselves.
    Register(RegisterWords),
}
