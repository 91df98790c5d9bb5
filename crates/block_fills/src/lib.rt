//! What is filled into the output of a board as blocks retire from an acquisition.
//!
//! `specs/Fills.antt` says which events fill retired blocks, which items they try to put into the output, and
//! what such an item holds. `laws` has what is true of them. There is no code that runs.
#![tactic(auto)]

pub mod laws;
