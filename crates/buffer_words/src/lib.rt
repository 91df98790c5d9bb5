//! The board of one data stream, shared by threads: ownership words and slots over one table of atomic
//! words.
#![tactic(auto)]

mod calls; // the public calls on a board, a file for each kind
mod codes; // ownership words as numbers
mod crossing; // boards are shared, passes cross to threads
mod laws; // laws of the definitions, as contracts
mod loan; // a buffer that is lent out
mod pass; // what a thread acts on the board with
mod plays; // the kinds of step, as the rule of the table sees them
mod rule; // the rule of the table
mod steps; // the single steps on the other words
mod tried; // how one try ended
mod view; // what a pass is about
mod witness; // what a pass shows of the history
mod words; // the board, and the single steps on a place

pub use crossing::{board_is_shared, tokens_cross};
pub use gentl_types::{State, Word};
pub use laws::{
    between_steps, both_add_both, entries_are_owned, hosted_histories_are_theirs, hosts_act,
    hosts_begin, hosts_join, hosts_see_more, hosts_split, loans_stay, new_workers_do_their_kind,
    nothing_adds_none, one_adds_one, works_compose,
};
pub use loan::Loan;
pub use pass::Pass;
pub use rule::OneHistory;
pub use tried::Tried;
pub use view::{Stage, View};
pub use words::Board;
