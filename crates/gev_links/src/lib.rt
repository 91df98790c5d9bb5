//! The outside: where bytes come from and go to, with a count of the faults that came, and what time it is.
//!
//! `Source` and `Sink` say what was given and taken where the object tells it, and that a call fails
//! only where the object's count of faults rose. `Clock` says which moments it told. The forms in memory
//! tell; standard input and output and the system's clock do not. `Gate` is where a test holds a worker.
#![tactic(auto)]

mod clock; // `Clock`
mod counting; // one more, where it can be counted
mod discarding_link; // a link in memory that discards
mod failed; // what a call that failed answers
mod fault_count; // `CountsFaults`
mod fill_bell; // a gate that each fill rings
mod gate; // `Gate`
mod gates; // open gates, and gates that hold
mod link; // `Link`
mod meeting_gate; // a gate where two workers meet
mod memory_clock; // a clock in memory
mod memory_link; // a link in memory
mod memory_ports; // ports in memory
mod memory_sink; // a sink in memory
mod memory_source; // a source in memory
mod ports; // `Ports`
mod reception; // what a receive gave
mod receptions; // the list of them
mod short_link; // `ShortLink`
mod sink; // `Sink`
mod source; // `Source`
mod steady_source; // a source that never fails
mod writing; // a whole text to a sink

pub use clock::Clock;
pub use discarding_link::DiscardingLink;
pub use failed::Failed;
pub use fault_count::CountsFaults;
pub use fill_bell::FillBell;
pub use gate::Gate;
pub use gates::{HoldingGate, OpenGate};
pub use link::Link;
pub use meeting_gate::MeetingGate;
pub use memory_clock::MemoryClock;
pub use memory_link::MemoryLink;
pub use memory_ports::MemoryPorts;
pub use memory_sink::MemorySink;
pub use memory_source::MemorySource;
pub use ports::Ports;
pub use short_link::ShortLink;
pub use sink::Sink;
pub use source::Source;
pub use steady_source::SteadySource;
pub use writing::write_all;
