ghost use Rattle.std.specs.Prelude.{◌≡◌, ◌≤◌, ℕ, [], length, vec_capacity, map, get_or, Option, Some, None, IfOk, IfSome, IfErr, OnOk, OnErr, option_map};
ghost use Rattle.gev_links.specs.Faults.{Rose};
ghost use Rattle.gev_links.specs.Links.{IsBlank};
ghost use Rattle.std.specs.List.{AllByRecursion};
ghost use Rattle.gev_record.specs.Marks.{IsReceived};
ghost use Rattle.gev_record.specs.Taped.{KeepsFront, kept_on, shown, Fits};

use crate::kept::{Kept, ROOM};
use gev_links::{Failed, Link, ShortLink};
use gev_types::{NoMemory, Peer};
use std::alloc::Global;
use std::marker::Model;

/// A link that keeps what it hears: of each of its first receives the datagram, if one came, of 1,600 bytes at
/// most. A longer one is cut before anybody sees it.
#[derive(Drop)]
pub struct Tape<L: Link> {
    inner: L,
    kept: Vec<Kept>,
    turns: u32,
}

impl<L: Link> Model for Tape<L> {
    ghost use Rattle.std.specs.Prelude.{◌≤◌, length, map, vec_capacity};
    ghost use Rattle.std.specs.List.{AllByRecursion};
    ghost use Rattle.gev_record.specs.Taped.{TapeState, KeepsFront, shown, Fits};

    ghost Value = { TapeState L };

    ghost view = { λ t. record { inner = t.inner; turns = t.turns; kept = map shown t.kept.items } };

    ghost invariant = { λ t. (t.turns ≤ vec_capacity t.kept) × (length t.kept.items ≤ t.turns) × AllByRecursion Fits t.kept.items × KeepsFront t.turns (L.received t.inner) (map shown t.kept.items) };
}

impl<L: Link> Tape<L> {
    /// A tape of a link that told nothing yet, for so many receives. It takes all the memory that the tape will
    /// use, 1,600 bytes for each receive; without it the link comes back.
    pub fn new(alloc: Global, inner: L, turns: u32) -> Result<Tape<L>, (L, NoMemory)>
        requires blank { IsBlank (L.received inner) }
        ensures inner { IfOk result (λ tape. tape.inner ≡ inner) }
        ensures turns { IfOk result (λ tape. tape.turns ≡ turns) }
        ensures kept { IfOk result (λ tape. tape.kept ≡ []) }
        ensures back { IfErr result (λ both. both.0 ≡ inner) }
    {
        match Vec::with_capacity(alloc, turns as usize) {
            Ok(kept) => Ok(Tape { inner, kept, turns }),
            Err(_) => Err((inner, NoMemory)),
        }
    }

    /// The link.
    pub fn into_inner(self) -> L
        ensures { result ≡ self.inner }
    {
        self.inner
    }

    /// How many receives the tape has kept.
    pub fn len(&self) -> usize
        ensures { result ≡ length self.now.kept }
    {
        self.kept.len()
    }

    /// What it keeps, for a proof: what the first receives of its link gave, datagrams of at most 1,600 bytes.
    pub fn witness(&self)
        ensures front { KeepsFront self.now.turns (L.received self.now.inner) self.now.kept }
        ensures received { AllByRecursion IsReceived self.now.kept }
    {
        let _ = &self.inner;
    }

    /// The datagram of a receive, which are numbered from 0; None where none came, where the receive failed, and
    /// where it wasn't kept.
    pub fn datagram(&self, turn: u32) -> Option<&[u8]>
        ensures { option_map (λ bytes. bytes.now) result ≡ get_or self.now.kept turn None }
    {
        self.kept_at(turn as usize)
    }

    /// The same, by a number of any size.
    pub(crate) fn kept_at(&self, turn: usize) -> Option<&[u8]>
        ensures value { option_map (λ bytes. bytes.now) result ≡ get_or self.now.kept turn None }
        ensures short { IfSome result (λ bytes. length bytes.now ≤ 1600) }
    {
        match self.kept.get(turn) {
            Some(Kept::Came { bytes, len }) => Some(&bytes[..*len]),
            Some(Kept::Nothing) => None,
            None => None,
        }
    }
}

/// A datagram that came, as it is kept.
fn came(bytes: &[u8]) -> Kept
    requires short { length bytes.now ≤ 1600 }
    ensures shown { shown result ≡ Some bytes.now }
    ensures fits { Fits result }
{
    let mut kept = [0; ROOM];
    kept[..bytes.len()].copy_from_slice(bytes);
    Kept::Came {
        bytes: kept,
        len: bytes.len(),
    }
}

/// Keeps what a receive gave, where it is one of the first.
fn keep(kept: &mut Vec<Kept>, turns: u32, one: Kept)
    requires room { turns ≤ vec_capacity kept.old }
    ensures items { kept.new.items ≡ kept_on turns kept.old.items one }
    ensures capacity { vec_capacity kept.old ≤ vec_capacity kept.new }
{
    if kept.len() < turns as usize {
        kept.push_reserved(one);
    }
}

impl<L: ShortLink> Link for Tape<L> {
    ghost received = { λ t. L.received t.inner };

    ghost sent = { λ t. L.sent t.inner };

    ghost faults = { λ t. L.faults t.inner };

    ghost address = { λ t. L.address t.inner };

    fn send(&mut self, peer: Peer, bytes: &[u8]) -> Result<(), Failed> {
        self.inner.send(peer, bytes)
    }

    fn recv(&mut self, out: &mut [u8]) -> Result<Option<(usize, Peer)>, Failed> {
        let room = out.len().min(ROOM);
        match self.inner.recv_front(&mut out[..room]) {
            Ok(Some((len, peer))) => {
                keep(&mut self.kept, self.turns, came(&out[..len]));
                Ok(Some((len, peer)))
            }
            Ok(None) => {
                keep(&mut self.kept, self.turns, Kept::Nothing);
                Ok(None)
            }
            Err(failed) => {
                keep(&mut self.kept, self.turns, Kept::Nothing);
                Err(failed)
            }
        }
    }

    fn peer(&self) -> Peer {
        self.inner.peer()
    }
}
