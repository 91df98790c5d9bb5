//! Waits at a socket: for a datagram that comes, and for room for one that goes out.

use libc::types::{pollfd, timespec};
use std::net::UdpSocket;
use std::os::fd::AsRawFd;

/// For how long more datagrams are let come behind a wait that found one, in nanoseconds. The system makes it some
/// 50 microseconds longer.
const GATHERING: i64 = 150_000;

/// For how long the sends of one turn wait for room, in microseconds.
const SECOND: u64 = 1_000_000;

const NANOS_OF_MICRO: u64 = 1000;

const MICROS_OF_MILLI: u64 = 1000;

/// Waits until one of these events is there, for at most so many milliseconds: whether one is.
fn is_within(socket: &UdpSocket, events: i16, limit: i32) -> bool {
    let mut asked = [pollfd {
        fd: socket.as_raw_fd(),
        events,
        revents: 0,
    }];
    libc::net::poll(&mut asked, limit) > 0
}

/// Waits until a datagram is there, for at most so many milliseconds: whether one is. The socket's own read timeout comes
/// out longer: the system rounds it up to its clock ticks.
pub(crate) fn comes_within(socket: &UdpSocket, limit: i32) -> bool {
    is_within(socket, libc::net::POLLIN, limit)
}

/// Lets more datagrams come. A wake-up costs more than a datagram: a reader that is faster than its camera would be
/// woken for each.
pub(crate) fn gather() {
    let asked = timespec {
        tv_sec: 0,
        tv_nsec: GATHERING,
    };
    let mut left = timespec {
        tv_sec: 0,
        tv_nsec: 0,
    };
    let _ = libc::nanosleep(&asked, &mut left);
}

/// The system's monotonic clock, in microseconds.
fn moment() -> u64 {
    let mut told = timespec {
        tv_sec: 0,
        tv_nsec: 0,
    };
    let _ = libc::clock_gettime(libc::CLOCK_MONOTONIC, &mut told);
    let seconds = u64::try_from(told.tv_sec).unwrap_or(0);
    let nanos = u64::try_from(told.tv_nsec).unwrap_or(0);
    seconds
        .saturating_mul(SECOND)
        .saturating_add(nanos / NANOS_OF_MICRO)
}

/// For how long the sends of one turn may still wait, in microseconds.
#[derive(Drop)]
pub(crate) struct Patience {
    left: u64,
}

impl Patience {
    /// That of a turn that begins.
    pub(crate) fn new() -> Patience {
        Patience { left: SECOND }
    }

    /// Waits until the socket has room for a datagram: whether a further send is worth it.
    pub(crate) fn waits_for_room(&mut self, socket: &UdpSocket) -> bool {
        let limit = i32::try_from(self.left / MICROS_OF_MILLI).unwrap_or(0);
        if limit == 0 {
            return false;
        }
        let begun = moment();
        let _ = is_within(socket, libc::net::POLLOUT, limit);
        self.left = self.left.saturating_sub(moment().saturating_sub(begun));
        true
    }
}
