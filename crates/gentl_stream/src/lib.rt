//! The calls on a data stream of the board that threads share, as EMVA GenTL has them: buffers are
//! announced, queued, revoked, borrowed and returned, queues are flushed, the acquisition is started and
//! stopped, and the stream and its buffers tell of themselves.
#![tactic(auto)]

mod announce; // DSAnnounceBuffer
mod buffers; // queue, revoke, borrow and return
mod close; // DSClose
mod empty; // the flush of the pool to the output
mod flush; // the other flushes
mod info; // DSGetInfo and DSGetBufferInfo
mod looks; // the look with which calls begin
mod places; // what is done with each of several places
mod run; // DSStartAcquisition and DSStopAcquisition

pub use announce::ds_announce;
pub use buffer_words::Loan;
pub use buffers::{ds_borrow, ds_queue, ds_return, ds_revoke};
pub use close::ds_close;
pub use flush::{discard_output, ds_flush};
pub use info::{ds_buffer_info, ds_info};
pub use run::{ds_start, ds_stop};
