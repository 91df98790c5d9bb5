//! Tests of the outside in memory, and of the laws of the wire's crates.

mod clocks; // clocks and gates
mod far; // looks at what comes next, and binds that reach the network
mod laws; // laws of base and wire
mod links; // which receives and sends fail
mod numbers; // bytes as one number
mod ports; // which binds fail, and what comes back
mod sinks; // which writes fail, and whole texts
mod sources; // which reads fail
