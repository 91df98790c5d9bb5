//! The real outside: standard input, output and error, UDP sockets, and the system's clock; and the gate at which the
//! application rests.
//!
//! Each adapter meets its trait of `gev_links` and tells nothing of what it reads, writes or tells.
#![tactic(auto)]

mod call_fault; // which call failed, and why
mod monotonic_clock; // the system's clock
mod real_ports; // where links and clocks come from
mod resting_bell; // a gate that each fill rings
mod sent_commands; // the commands that were sent last
mod socket_table; // the system's table of sockets
mod socket_waits; // waits at a socket
mod standard_input; // standard input as a source
mod standard_output; // standard output as a sink
mod udp_link; // a UDP socket

pub use call_fault::{Call, CallFault};
pub use monotonic_clock::MonotonicClock;
pub use real_ports::RealPorts;
pub use resting_bell::RestingBell;
pub use sent_commands::SentCommand;
pub use standard_input::StandardInput;
pub use standard_output::StandardOutput;
pub use udp_link::UdpLink;
