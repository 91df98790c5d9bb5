//! The single steps on the shared table, by the word on which they are made; those on a place's word are `words`'.

mod marks;
pub(crate) mod output;
mod pool;
mod seats;
