//! Links and ports towards a device on the network: a link whose next datagram can be looked at, one whose receives wait
//! for as long as they are told, and ports that bind at addresses of this machine.
//!
//! They stand beside `Link` and `Ports` of `gev_links`. `MemoryLink` and `MemoryPorts` are their forms in memory.
#![tactic(auto)]

mod drops; // what the system dropped
mod far_ports; // `FarPorts`
mod memory; // the forms in memory
mod peek_link; // `PeekLink`
mod timed_link; // `TimedLink`

pub use drops::Drops;
pub use far_ports::FarPorts;
pub use peek_link::PeekLink;
pub use timed_link::TimedLink;
