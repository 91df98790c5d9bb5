//! The calls on the board, each of which adds the entries of its steps to its pass.

pub(crate) mod claim;
mod loans;
mod marks;
mod output;
mod passes;
mod places;
mod pool;
