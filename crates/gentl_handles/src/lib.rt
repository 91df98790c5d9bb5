//! The handles of GenTL's modules and of the event: which are open, under which, and by which number.
//!
//! The tree stands in place of GenTL's opening and closing calls. Only `Tree::new` takes memory.
#![tactic(auto)]

mod closing; // which handles fall with one
mod handle; // the name of what is open
mod laws; // laws of the definitions, as contracts
mod level; // what a handle stands for
mod opened; // what is known of an open handle
mod opening; // what may be opened
mod storing; // the store of open handles
mod tree; // the handles and their public calls

pub use handle::Handle;
pub use laws::{calls_keep_order, closing_takes_all_below, serials_rise};
pub use level::Level;
pub use tree::Tree;
