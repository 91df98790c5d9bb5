ghost use Rattle.std.specs.Prelude.{◌≡◌, ◌≤◌, ◌+◌, length, position, slice_get, vec_len, vec_capacity, IfOk};
ghost use Rattle.gev_capture.specs.Contents.{seen_as, IsShort};
ghost use Rattle.gev_capture.specs.Sightings.{Sighting};
ghost use Rattle.capture_streams.specs.Signs.{sign};
ghost use Rattle.capture_streams.specs.Streams.{is_between, with_one_more_at, with_new, with_carried, empty_table, counted};

use crate::counts::Counts;
use crate::sign::{Kind, Sign};
use crate::signing::sign;
use crate::stream::Stream;
use gev_capture::Content;
use gev_types::{NoMemory, Peer};
use std::alloc::Global;
use std::marker::Model;

/// The most streams that are listed.
const MOST_STREAMS: usize = 256;

/// The room for a datagram with extended identifiers: the most bytes of a datagram, and 12 more.
const ROOM: usize = 65_539;

/// The streams of a capture so far. Contracts see them and what was counted.
#[derive(Drop)]
pub(crate) struct Table {
    streams: Vec<Stream>,
    counts: Counts,
    room: Vec<u8>,
}

impl Model for Table {
    ghost use Rattle.std.specs.Prelude.{◌≡◌, ◌≤◌, vec_len, vec_capacity};
    ghost use Rattle.capture_streams.specs.Streams.{TableState};

    ghost Value = { TableState };

    ghost view = { λ t. record { streams = t.streams.items; counts = t.counts } };

    ghost invariant = { λ t. (256 ≤ vec_capacity t.streams) × (vec_len t.room ≡ 65539) };
}

/// The place of the stream from the one to the other.
fn place_of(streams: &[Stream], sender: Peer, receiver: Peer) -> Option<usize>
    ensures { result ≡ position (is_between sender receiver) streams.now }
{
    streams
        .iter()
        .position(|stream| stream.is_between(sender, receiver))
}

/// One more datagram of the stream at this place.
fn count_at(streams: &mut Vec<Stream>, place: usize, moment: u64, sign: Sign)
    ensures counted { streams.new.items ≡ with_one_more_at place moment sign (slice_get streams.old.items place) streams.old.items }
    ensures room { vec_capacity streams.new ≡ vec_capacity streams.old }
{
    let Some(stream) = streams.get(place).copied() else {
        return;
    };
    streams[place] = stream.with_one_more(moment, sign);
}

impl Table {
    /// No stream yet. All memory for streams is taken here.
    pub(crate) fn new(alloc: Global) -> Result<Table, NoMemory>
        ensures { IfOk result (λ table. table ≡ empty_table) }
    {
        let room = vec![in alloc; 0u8; ROOM]?;
        Ok(Table {
            streams: Vec::with_capacity(alloc, MOST_STREAMS)?,
            counts: Counts::none(),
            room,
        })
    }

    /// The streams, in the order in which they begin.
    pub(crate) fn streams(&self) -> &[Stream]
        ensures { result.now ≡ self.now.streams }
    {
        self.streams.as_slice()
    }

    /// What was counted.
    pub(crate) fn counts(&self) -> Counts
        ensures { result ≡ self.now.counts }
    {
        self.counts
    }

    /// A datagram of a pair that is no stream yet.
    fn count_new(&mut self, sender: Peer, receiver: Peer, moment: u64, sign: Sign)
        ensures { self.new ≡ with_new sender receiver moment sign self.old }
    {
        let Kind::Leader(_extended, block, _info) = sign.kind else {
            return;
        };
        if self.streams.len() < MOST_STREAMS {
            let stream = Stream::begun(sender, receiver, moment, block, sign);
            self.streams.push_reserved(stream);
        } else {
            self.counts = self.counts.with_unlisted();
        }
    }

    /// One more datagram.
    fn count_datagram(&mut self, sender: Peer, receiver: Peer, moment: u64, bytes: &[u8])
        requires { length bytes.now ≤ 65527 }
        ensures { self.new ≡ with_carried (record { sender = sender; receiver = receiver; bytes = bytes.now }) moment self.old }
    {
        let sign = sign(bytes, self.room.as_mut_slice());
        match place_of(self.streams.as_slice(), sender, receiver) {
            Some(place) => count_at(&mut self.streams, place, moment, sign),
            None => self.count_new(sender, receiver, moment, sign),
        }
    }

    /// One more packet of the capture, which came at this moment, or more that were dropped. The first packet came at
    /// `begin`.
    pub(crate) fn count(&mut self, begin: u64, moment: u64, what: Content<'_>)
        requires { IsShort (seen_as what) }
        ensures { self.new ≡ counted (record { begin = begin; moment = moment; what = seen_as what.entry }) self.old }
    {
        self.counts = self.counts.after(begin, what);
        match what {
            Content::Datagram {
                sender,
                receiver,
                bytes,
            } => self.count_datagram(sender, receiver, moment, bytes),
            Content::Other => {}
            Content::Fragment => {}
            Content::Cut => {}
            Content::Dropped { .. } => {}
        }
    }
}
