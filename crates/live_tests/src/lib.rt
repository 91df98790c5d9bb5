//! Tests of live runs that no row can tell: sockets, the system's clock, gates, the queues of lanes, what goes round between
//! reader and lanes, and threads that meet.
#![tactic(auto)]

#[cfg(test)]
mod boards;
#[cfg(test)]
mod clocks;
#[cfg(test)]
mod crews;
#[cfg(test)]
mod far_sockets;
#[cfg(test)]
mod gates;
#[cfg(test)]
mod queues;
#[cfg(test)]
mod rounds;
#[cfg(test)]
mod sockets;
#[cfg(test)]
mod strangers;
#[cfg(test)]
mod workers;
