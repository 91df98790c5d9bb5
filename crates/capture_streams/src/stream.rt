ghost use Rattle.std.specs.Prelude.{◌≡◌, ◌&&◌, ◌||◌, not, max};
ghost use Rattle.gev_links.specs.Given.{one_more};
ghost use Rattle.capture_streams.specs.Streams.{same_peer, is_between, with_leader, with_kind, with_resent, with_one_more, blank, begun};

use crate::sign::{Kind, Sign};
use gev_types::Peer;
use stream_packets::LeaderInfo;

/// An image stream: what one address and port sends to another, from its first leader on.
#[derive(Clone, Copy, PartialEq, Eq)]
pub(crate) struct Stream {
    /// Who sends.
    pub sender: Peer,
    /// Who receives.
    pub receiver: Peer,
    /// A leader had extended identifiers.
    pub extended: bool,
    /// A leader had standard ones.
    pub standard: bool,
    /// How many datagrams came.
    pub datagrams: u64,
    /// The most bytes of a payload.
    pub payload: u64,
    /// How many packets came that were sent again.
    pub resent: u64,
    /// How many leaders came.
    pub leaders: u64,
    /// Pixels in a line, by the last leader.
    pub width: u32,
    /// Lines, by the last leader.
    pub height: u32,
    /// The pixel format's code, by the last leader.
    pub pixel: u32,
    /// The image's size in bytes, by the last leader.
    pub bytes: u32,
    /// The block id of the first leader.
    pub first: u64,
    /// The block id of the last leader.
    pub last: u64,
    /// The moment of the first datagram, in milliseconds.
    pub begun: u64,
    /// The moment of the last datagram.
    pub ended: u64,
}

/// One more, up to the counter's last value.
pub(crate) fn one_more(count: u64) -> u64
    ensures { result ≡ one_more count }
{
    count.saturating_add(1)
}

/// How many packets were sent again, where it's known whether this one was.
fn with_resent(resent: bool, count: u64) -> u64
    ensures { result ≡ with_resent resent count }
{
    if resent { one_more(count) } else { count }
}

/// Whether these are one address and port.
fn same_peer(a: Peer, b: Peer) -> bool
    ensures { result ≡ same_peer a b }
{
    a.address == b.address && a.port == b.port
}

impl Stream {
    /// Whether this is what the one sends to the other.
    pub(crate) fn is_between(&self, sender: Peer, receiver: Peer) -> bool
        ensures { result ≡ is_between sender receiver self.now }
    {
        same_peer(self.sender, sender) && same_peer(self.receiver, receiver)
    }

    /// A stream whose first leader, of this block, comes at this moment, before it's counted.
    fn blank(sender: Peer, receiver: Peer, moment: u64, block: u64) -> Stream
        ensures { result ≡ blank sender receiver moment block }
    {
        Stream {
            sender,
            receiver,
            extended: false,
            standard: false,
            datagrams: 0,
            payload: 0,
            resent: 0,
            leaders: 0,
            width: 0,
            height: 0,
            pixel: 0,
            bytes: 0,
            first: block,
            last: block,
            begun: moment,
            ended: moment,
        }
    }

    /// The stream behind a leader.
    fn with_leader(self, extended: bool, block: u64, info: LeaderInfo) -> Stream
        ensures { result ≡ with_leader extended block info self }
    {
        Stream {
            extended: self.extended || extended,
            standard: self.standard || !extended,
            leaders: one_more(self.leaders),
            width: info.size_x,
            height: info.size_y,
            pixel: info.pixel,
            bytes: info.size,
            last: block,
            ..self
        }
    }

    /// The stream behind a datagram that is counted.
    fn with_kind(self, kind: Kind) -> Stream
        ensures { result ≡ with_kind kind self }
    {
        match kind {
            Kind::Leader(extended, block, info) => self.with_leader(extended, block, info),
            Kind::Payload(count) => Stream {
                payload: self.payload.max(count),
                ..self
            },
            Kind::Other => self,
        }
    }

    /// The stream with one more datagram, at this moment.
    pub(crate) fn with_one_more(self, moment: u64, sign: Sign) -> Stream
        ensures { result ≡ with_one_more moment sign self }
    {
        let counted = Stream {
            datagrams: one_more(self.datagrams),
            resent: with_resent(sign.resent, self.resent),
            ended: moment,
            ..self
        };
        counted.with_kind(sign.kind)
    }

    /// The stream that this leader begins, which is of this block.
    pub(crate) fn begun(
        sender: Peer,
        receiver: Peer,
        moment: u64,
        block: u64,
        leader: Sign,
    ) -> Stream
        ensures { result ≡ begun sender receiver moment block leader }
    {
        Stream::blank(sender, receiver, moment, block).with_one_more(moment, leader)
    }
}
