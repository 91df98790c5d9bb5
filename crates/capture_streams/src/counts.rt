ghost use Rattle.std.specs.Prelude.{◌≡◌, ◌+◌, ◌-◌, ◌^◌, min};
ghost use Rattle.gev_capture.specs.Contents.{seen_as};
ghost use Rattle.capture_streams.specs.Streams.{no_counts, with_unlisted, dropped_now, counts_after};
ghost use Rattle.capture_streams.specs.Texts.{told_dropped};

use crate::stream::one_more;
use gev_capture::Content;

/// What is counted of a capture's packets.
#[derive(Clone, Copy, PartialEq, Eq)]
pub(crate) struct Counts {
    /// Packets.
    pub packets: u64,
    /// Datagrams of UDP over IPv4.
    pub datagrams: u64,
    /// Fragments.
    pub fragments: u64,
    /// Datagrams of which not all bytes were captured.
    pub cut: u64,
    /// Other packets.
    pub other: u64,
    /// Leaders of streams that aren't listed.
    pub unlisted: u64,
    /// Packets that the capturing program dropped.
    pub dropped: u128,
    /// The time of the first packet in milliseconds since 1970, 0 where there is none.
    pub begin: u64,
}

/// What was dropped where an interface that told of `before` packets tells now of `now`.
fn dropped_now(before: u64, now: u64, sum: u128) -> u128
    ensures { result ≡ dropped_now before now sum }
{
    sum.saturating_add(u128::from(now))
        .saturating_sub(u128::from(before))
}

impl Counts {
    /// Nothing was counted.
    pub(crate) fn none() -> Counts
        ensures { result ≡ no_counts }
    {
        Counts {
            packets: 0,
            datagrams: 0,
            fragments: 0,
            cut: 0,
            other: 0,
            unlisted: 0,
            dropped: 0,
            begin: 0,
        }
    }

    /// One leader more of a stream that isn't listed.
    pub(crate) fn with_unlisted(self) -> Counts
        ensures { result ≡ with_unlisted self }
    {
        Counts {
            unlisted: one_more(self.unlisted),
            ..self
        }
    }

    /// How many packets were dropped, at most 18,446,744,073,709,551,615.
    pub(crate) fn told_dropped(self) -> u64
        ensures { result ≡ told_dropped self }
    {
        self.dropped.min(u128::from(u64::MAX)) as u64
    }

    /// One packet more, or more that were dropped, where the first packet came at `begin`.
    pub(crate) fn after(self, begin: u64, what: Content<'_>) -> Counts
        ensures { result ≡ counts_after begin (seen_as what.entry) self }
    {
        let packets = one_more(self.packets);
        match what {
            Content::Other => Counts {
                begin,
                packets,
                other: one_more(self.other),
                ..self
            },
            Content::Fragment => Counts {
                begin,
                packets,
                fragments: one_more(self.fragments),
                ..self
            },
            Content::Cut => Counts {
                begin,
                packets,
                cut: one_more(self.cut),
                ..self
            },
            Content::Datagram { .. } => Counts {
                begin,
                packets,
                datagrams: one_more(self.datagrams),
                ..self
            },
            Content::Dropped { before, now } => Counts {
                begin,
                dropped: dropped_now(before, now, self.dropped),
                ..self
            },
        }
    }
}
