//! Buffers, who owns each, and GenTL's calls on them: `Board` is shared by threads, `PlainBoard` is one caller's.

pub use board_calls::{FillEnd, TakeEnd, loan_info};
/// `PlainBoard` is a board of one caller's.
///
/// ```
/// // actor 0 announces a buffer, claims it for a block, fills it and takes it
/// let mut board = PlainBoard::new(rt.alloc())?;
/// let id = board.ds_announce(rt.alloc(), 0, 307_200)?;
/// board.ds_queue(0, id)?;
/// board.ds_start(0)?;
/// if let Some(place) = board.claim(0) {
///     let buf = board.lift(0, place);
///     let _ = board.fill(0, place, buf);
/// }
/// let place = board.event_get(0, moment)?;
/// println!(rt; "{} bytes", board.buf(place).rec().filled)?;
/// board.ds_return(0, place);
/// ```
pub use board_model::PlainBoard;
/// `Board` is a board that threads share.
///
/// ```
/// let (board, mut pass) = Board::new(rt.alloc())?;
/// let id = ds_announce(rt.alloc(), &board, &mut pass, 307_200)?;
/// ds_queue(&board, &mut pass, id)?;
/// ds_start(&board, &mut pass)?;
/// ```
pub use buffer_words::Board;
/// `Loan` is a buffer that the application holds.
///
/// ```
/// let loan = event_get(&rt, &board, &mut pass, &mut clock, &OpenGate, 1000)?;
/// let id = loan.id();
/// let record = loan.buf().rec();
/// ds_return(&board, &mut pass, loan);
/// ds_queue(&board, &mut pass, id)?;
/// ```
pub use buffer_words::Loan;
/// `Pass` is the right of one actor to act on a shared board.
///
/// ```
/// // the first pass comes with the board; each thread gets one that is split off
/// let (board, mut pass) = Board::new(rt.alloc())?;
/// let other = board.split(&mut pass);
/// board.join(&mut pass, other);
/// ```
pub use buffer_words::Pass;
/// `event_get` waits for a filled buffer.
///
/// ```
/// match event_get(&rt, &board, &mut pass, &mut clock, &OpenGate, 1000) {
///     Ok(loan) => {
///         let record = loan.buf().rec();
///         ds_return(&board, &mut pass, loan);
///         println!(rt; "{} bytes", record.filled)?;
///     }
///     Err(error) => println!(rt; "{error:?}")?,
/// }
/// ```
pub use board_calls::Mode;
pub use gentl_events::{event_flush, event_get, event_kill};
pub use gentl_stream::{
    ds_announce, ds_borrow, ds_buffer_info, ds_close, ds_flush, ds_info, ds_queue, ds_return,
    ds_revoke, ds_start, ds_stop,
};
pub use gentl_types::{BufferId, GcError};
pub use shared_modes::{claim_for, fill_for};
