ghost use Rattle.std.specs.Prelude.{◌≡◌};
ghost use Rattle.gev_capture.specs.Sightings.{no_moments, moment_in, moments_after, moments_with, begin_of};
ghost use Rattle.gev_capture.specs.Walking.{captured_packet};

use crate::captured::Captured;
use crate::seeing::moment_of;

/// The moments of a capture's packets so far: the time of the first packet in nanoseconds, and the moment of
/// the last in milliseconds.
#[derive(Clone, Copy, Debug, PartialEq, Eq)]
pub struct Moments {
    first: Option<u128>,
    last: u64,
}

impl Moments {
    /// No packet yet.
    pub fn new() -> Moments
        ensures { result ≡ no_moments }
    {
        Moments {
            first: None,
            last: 0,
        }
    }

    /// The next packet came at this time.
    fn next(&mut self, time: u128)
        ensures { self.new ≡ moments_after self.old time }
    {
        let first = self.first.unwrap_or(time);
        self.last = moment_of(first, self.last, time);
        self.first = Some(first);
    }

    /// The next record told this of packets.
    pub fn note(&mut self, packet: Captured<'_>)
        ensures { self.new ≡ moments_with self.old (captured_packet packet.entry) }
    {
        match packet {
            Captured::Packet { time, .. } => self.next(time),
            Captured::Dropped { .. } => {}
        }
    }

    /// The time of the first packet in whole milliseconds since 1970, at most 18,446,744,073,709,551,615; 0 where
    /// there is none.
    pub fn begin(&self) -> u64
        ensures { result ≡ begin_of self.now.first }
    {
        match self.first {
            Some(first) => (first / 1_000_000).min(u128::from(u64::MAX)) as u64,
            None => 0,
        }
    }

    /// The moment of the last packet in milliseconds from the first, 0 where there is none.
    pub fn last(&self) -> u64
        ensures { result ≡ self.now.last }
    {
        self.last
    }
}
