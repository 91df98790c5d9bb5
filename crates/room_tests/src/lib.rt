//! Tests that no row of a program can be, of all rooms but the live one: the outside in memory, threads that meet on
//! one board, what readers do behind a read that fails, and that the laws can be called.
#![tactic(auto)]

#[cfg(test)]
mod board; // threads that meet on one board, and the board's laws
#[cfg(test)]
mod laws; // laws of the other rooms, and calls after a fault
#[cfg(test)]
mod wire; // sources, sinks, links, ports and clocks in memory, and the wire's laws
