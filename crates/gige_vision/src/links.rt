//! The outside: sockets, clocks, standard input and output, and forms of them in memory for tests.
//!
//! ```
//! let mut link = UdpLink::open(&rt, Peer { address: 0, port: 50000 }, true)?;
//! let mut clock = MonotonicClock::new(&rt);
//! let mut out = [0; 9000];
//! let came = link.recv(&mut out)?;
//! ```

pub use gev_far::{FarPorts, PeekLink, TimedLink};
pub use gev_links::{Clock, Failed, Gate, Link, OpenGate, Ports, Sink, Source};
/// `MemoryClock` is a clock that tells moments of a list.
///
/// ```
/// let mut clock = MemoryClock::new(&[0, 40]);
/// println!(rt; "{} {} {}", clock.now(), clock.now(), clock.now())?; // 0 40 40
/// ```
pub use gev_links::MemoryClock;
/// `MemoryLink` is a link that gives answers of a list, and keeps what is sent.
///
/// ```
/// // gives a datagram, then nothing, and keeps up to nine datagrams that are sent
/// let answers = [Some((&[1, 2, 3][..], camera)), None];
/// let mut link = MemoryLink::new(rt.alloc(), own, &answers, &[], &[], 9)?;
/// let mut out = [0; 9000];
/// let came = link.recv(&mut out)?;
/// link.send(camera, &[7])?;
/// println!(rt; "{} came, {} was sent", came.is_some(), link.sent().len())?;
/// ```
pub use gev_links::MemoryLink;
/// `MemorySink` is a sink that keeps what is written.
///
/// ```
/// // takes up to four bytes in a call, and its second call fails
/// let mut sink = MemorySink::new(rt.alloc(), 4, &[2]);
/// let count = sink.write(b"bytes")?;
/// println!(rt; "{count} of {:?}", sink.written())?;
/// ```
pub use gev_links::MemorySink;
/// `MemorySource` is a source that gives bytes of a slice.
///
/// ```
/// // gives up to four bytes in a call, and no call fails
/// let mut source = MemorySource::new(b"a script", 4, &[]);
/// let mut out = [0; 16];
/// let count = source.read(&mut out)?;
/// ```
pub use gev_links::MemorySource;
pub use gev_real::{MonotonicClock, RealPorts, StandardInput, StandardOutput, UdpLink};
pub use gev_types::Peer;
pub use link_filters::{OnlyFrom, Widened};
