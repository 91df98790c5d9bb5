//! Registers of a camera that are read and written by themselves, without a stream (GigE Vision 2.0, GVCP: READREG,
//! WRITEREG of one register).
//!
//! `specs/Registers.antt` says what was made and written, over links and clocks that tell, and `specs/Laws.antt` what it
//! submits. No call takes memory.
#![tactic(auto)]

mod accessing; // the accesses, with control where any of them writes
mod lines; // the line of a register that was read
pub mod laws; // laws of the definitions, as contracts
mod making; // one access
mod register_fault; // why accesses ended
mod registering; // the whole, over ports

pub use accessing::access_registers;
pub use register_fault::RegisterFault;
pub use registering::register;
