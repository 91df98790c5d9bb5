//! The receiver of one stream: datagrams and moments in, filled buffers and requests out.

/// `Acq` is the receiver of a stream.
///
/// ```
/// let config = AcqConfig { p: 1440, window: 2, timeout: 1000, age: 100, rounds: 1 };
/// let mut acq = Acq::new(rt.alloc(), config)?;
/// if let Need::Buffer(_) = acq.datagram(&bytes) {
///     // a block opens: what retired is taken first
///     while let Some(image) = acq.next_fill() {
///         pool.push((image.place, image.buf))?;
///     }
///     acq.give(pool.pop());
///     acq.datagram(&bytes);
/// }
/// ```
pub use acq_core::{Acq, AcqConfig, Counts, Ended, Held, Need, Retired, Why};
pub use gev_types::{MAX_RECEIVED_PAYLOAD_SIZE, MIN_PAYLOAD_SIZE};
