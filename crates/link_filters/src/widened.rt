ghost use Rattle.std.specs.Prelude.{◌≡◌, ◌≤◌, ◌+◌, ◌-◌, ◌^◌, min, ℕ, length, take, option_map, IfSome, Ok};
ghost use Rattle.gev_links.specs.Links.{answer_of};
ghost use Rattle.link_filters.specs.Wide.{wide_bytes, top_behind, wide_answer, next_top, refusals, heard_wide, HasTold, CountsRefused};

use crate::fixed::Behind;
use gev_far::PeekLink;
use gev_links::{Failed, Link};
use gev_types::Peer;
use gvsp_std::{StdError, Widener};
use std::marker::{Model, PhantomData};

/// The room for a datagram, in bytes.
const ROOM: usize = 9000;

/// The room for a datagram that was widened.
const WIDE_ROOM: usize = ROOM + 12;

/// The greatest block that a widener takes one behind.
const LAST_TOP: u64 = 1 << 63;

/// A link over which a stream with standard identifiers is heard as one with extended ones (GigE Vision 1.x and
/// 2.0, GVSP packet headers).
///
/// Each datagram has the block near the greatest so far. One whose block id is 0, or names a block before the
/// first, is refused and counted: to the caller nothing came. Of the wide form at most 9,000 bytes are heard.
#[derive(Drop)]
pub struct Widened<L: Link, B: Behind> {
    inner: L,
    widener: Widener,
    refused: u64,
    own: [u8; ROOM],
    wide: [u8; WIDE_ROOM],
    behind: PhantomData<B>,
}

impl<L: Link, B: Behind> Model for Widened<L, B> {
    ghost use Rattle.link_filters.specs.Wide.{KeepsWide};
    ghost use Rattle.link_filters.specs.States.{WidenedState};

    ghost Value = { WidenedState L };

    ghost view = { λ w. record { inner = w.inner; refused = w.refused } };

    ghost invariant = { λ w. KeepsWide B.before w.widener w.refused (L.received w.inner) };
}

impl<L: Link, B: Behind> Widened<L, B> {
    /// A link that widens from the next receive on, with 0 as the greatest block so far.
    pub fn new(inner: L) -> Widened<L, B>
        requires { HasTold B.before (L.received inner) }
        ensures inner { result.inner ≡ inner }
        ensures refused { result.refused ≡ 0 }
        // What the inner link told before is told as it came.
        ensures received { option_map (heard_wide B.before) (L.received inner) ≡ L.received inner }
    {
        Widened {
            inner,
            widener: Widener::new(),
            refused: 0,
            own: [0; ROOM],
            wide: [0; WIDE_ROOM],
            behind: PhantomData,
        }
    }

    /// The link it stands on.
    pub fn into_inner(self) -> L
        ensures { result ≡ self.inner }
    {
        self.inner
    }

    /// How many datagrams were refused. The count stands still at its greatest value.
    pub fn refused(&self) -> u64
        ensures value { result ≡ self.now.refused }
        ensures counted { CountsRefused B.before (L.received self.now.inner) result }
    {
        self.refused
    }
}

/// What is heard of a datagram is put into the front of `out`, and the answer is its length; None where it's
/// refused.
fn widen(widener: &mut Widener, bytes: &[u8], wide: &mut [u8], out: &mut [u8]) -> Option<usize>
    requires bytes { length bytes.now ≤ 9000 }
    requires wide { length wide.old ≡ 9012 }
    requires out { length out.old ≡ 9000 }
    ensures count { IfSome result (λ len. len ≤ length out.old) }
    ensures heard { option_map (λ (len : ℕ). take len out.new) result ≡ wide_bytes widener.old bytes.now }
    ensures top { widener.new ≡ top_behind widener.old bytes.now }
{
    if widener.top() > LAST_TOP {
        return None;
    }
    match widener.widen(bytes, wide) {
        Ok(len) => Some(copy_front(&wide[..len], out)),
        Err(StdError::Short(_)) => Some(copy_front(bytes, out)),
        Err(StdError::Extended) => Some(copy_front(bytes, out)),
        Err(StdError::Zero) => None,
        Err(StdError::Before(_)) => None,
    }
}

/// Copies as many bytes as there is room for, and answers how many.
fn copy_front(bytes: &[u8], out: &mut [u8]) -> usize
    requires { length out.old ≡ 9000 }
    ensures count { result ≤ 9000 }
    ensures front { take result out.new ≡ take 9000 bytes.now }
    ensures whole { length bytes.now ≤ 9000 → take result out.new ≡ bytes.now }
{
    let count = bytes.len().min(out.len());
    out[..count].copy_from_slice(&bytes[..count]);
    count
}

/// What is heard of what a receive gave into `own`, each of whose datagrams has standard identifiers: it's put into the front
/// of `out`, and `refused` counts a datagram that is refused. `wide` is room for the wide form.
pub fn hear(
    came: Option<(usize, Peer)>,
    own: &[u8],
    widener: &mut Widener,
    refused: &mut u64,
    wide: &mut [u8],
    out: &mut [u8],
) -> Option<(usize, Peer)>
    requires own { length own.now ≡ 9000 }
    requires came { IfSome came (λ datagram. datagram.0 ≤ 9000) }
    requires wide { length wide.old ≡ 9012 }
    requires out { length out.old ≡ 9000 }
    ensures count { IfSome result (λ datagram. datagram.0 ≤ length out.old) }
    ensures heard { answer_of (Ok result) out.new ≡ wide_answer widener.old (answer_of (Ok came) own.now) }
    ensures top { widener.new ≡ next_top widener.old (answer_of (Ok came) own.now) }
    ensures refused { refused.new ≡ min (refused.old + refusals widener.old (answer_of (Ok came) own.now)) (2 ^ 64 - 1) }
{
    let before = *refused;
    let (count, peer) = came?;
    match widen(widener, &own[..count], wide, out) {
        Some(len) => Some((len, peer)),
        None => {
            *refused = before.saturating_add(1);
            None
        }
    }
}

impl<L: Link, B: Behind> Link for Widened<L, B> {
    ghost received = { λ w. option_map (heard_wide B.before) (L.received w.inner) };

    ghost sent = { λ w. L.sent w.inner };

    ghost faults = { λ w. L.faults w.inner };

    ghost address = { λ w. L.address w.inner };

    fn send(&mut self, peer: Peer, bytes: &[u8]) -> Result<(), Failed> {
        self.inner.send(peer, bytes)
    }

    fn recv(&mut self, out: &mut [u8]) -> Result<Option<(usize, Peer)>, Failed> {
        match self.inner.recv(&mut self.own) {
            Ok(came) => Ok(hear(
                came,
                &self.own,
                &mut self.widener,
                &mut self.refused,
                &mut self.wide,
                out,
            )),
            Err(failed) => Err(failed),
        }
    }

    fn peer(&self) -> Peer {
        self.inner.peer()
    }
}

impl<L: PeekLink, B: Behind> PeekLink for Widened<L, B> {
    /// A datagram is shown as it came.
    fn peek(&mut self, out: &mut [u8]) -> Result<Option<(usize, Peer)>, Failed> {
        self.inner.peek(out)
    }

    fn set_waiting(&mut self, waits: bool) {
        self.inner.set_waiting(waits);
    }
}
