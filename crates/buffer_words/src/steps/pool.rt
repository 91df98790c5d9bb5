//! The single steps on the pool's word.
ghost use Rattle.std.specs.Prelude.{◌≡◌, ◌≢◌, ◌<◌, ◌^◌, ℕ, Some, None};
ghost use Rattle.std.specs.Int.{bit_at};
ghost use Rattle.gev_types.specs.Limits.{place_count};
ghost use Rattle.board_machine.specs.declared.events.Event.TheVariants as event;
ghost use Rattle.board_machine.specs.Places.{IsRising};
ghost use Rattle.board_machine.specs.Histories.{After};
ghost use Rattle.buffer_words.specs.Boards.{board_id};
ghost use Rattle.buffer_words.specs.Codes.{IsPool};
ghost use Rattle.buffer_words.specs.Plays.{IsIdle, HoldsBuffer, LooksAt, GivesBack, TakesBuffer, ReadsPool};
ghost use Rattle.buffer_words.specs.Swept.{TakesAll};

use crate::plays::{Asked, Claim, LookPool, Pool, SeePool, SweepPool};
use crate::words::{Board, Seat};
use arrayvec::ArrayVec;
use std::marker::Brand;

/// The pool's word in the table.
const POOL: usize = 15;

/// The places whose bits are set, lowest first.
fn places_of(number: u64) -> ArrayVec<u8, 15>
    requires { number < 2 ^ 15 }
    ensures pool { IsPool number result.items }
    ensures rising { IsRising result.items }
{
    let mut places = ArrayVec::new();
    for place in 0..15u8 {
        if (number >> place) % 2 == 1 {
            places.push(place);
        }
    }
    places
}

/// The bit of a place.
fn bit_of(place: u8) -> u64
    requires { place < place_count }
    ensures { result ≡ 2 ^ place }
{
    1 << place
}

impl Board {
    /// The pool's places, lowest first.
    pub(crate) fn look_at_pool(&self, seat: &mut Seat) -> ArrayVec<u8, 15>
        requires table { seat.old.table_id ≡ board_id self.now }
        requires idle { IsIdle seat.old.me }
        ensures table { seat.new.table_id ≡ seat.old.table_id }
        ensures looks { LooksAt seat.old.me (event.LookPool result.items) seat.new.me }
    {
        places_of(self.table.shared.load::<LookPool>(seat, POOL))
    }

    fn pool_as<J: Asked>(&self, seat: &mut Seat, place: u8)
        requires table { seat.old.table_id ≡ board_id self.now }
        requires idle { IsIdle seat.old.me }
        requires in_range { place < place_count }
        requires holds { HoldsBuffer seat.old.me place }
        requires asked { place ≡ J.number }
        ensures table { seat.new.table_id ≡ seat.old.table_id }
        ensures pools { GivesBack seat.old.me (event.Pool place) seat.new.me }
    {
        self.table
            .shared
            .fetch_or::<Pool<J>>(seat, POOL, bit_of(place));
    }

    /// Puts the buffer of a place in hand into the pool.
    pub(crate) fn put_in_pool(&self, seat: &mut Seat, place: u8)
        requires table { seat.old.table_id ≡ board_id self.now }
        requires idle { IsIdle seat.old.me }
        requires in_range { place < place_count }
        requires holds { HoldsBuffer seat.old.me place }
        ensures table { seat.new.table_id ≡ seat.old.table_id }
        ensures pools { GivesBack seat.old.me (event.Pool place) seat.new.me }
    {
        self.pool_as::<Brand>(seat, place);
    }

    /// A claim's load: the number of the pool's word.
    pub(crate) fn see_pool(&self, seat: &mut Seat) -> u64
        requires table { seat.old.table_id ≡ board_id self.now }
        requires idle { IsIdle seat.old.me }
        ensures table { seat.new.table_id ≡ seat.old.table_id }
        ensures none { result ≡ 0 → LooksAt seat.old.me (event.Claim None) seat.new.me }
        ensures some { result ≢ 0 → ReadsPool seat.old.me result seat.new.me }
    {
        self.table.shared.load::<SeePool>(seat, POOL)
    }

    /// A claim's exchange: the number found, which is the one that was read where the claim is done.
    pub(crate) fn claim_pooled<J: Asked>(&self, seat: &mut Seat, number: u64, place: u8) -> u64
        requires table { seat.old.table_id ≡ board_id self.now }
        requires idle { IsIdle seat.old.me }
        requires in_range { place < place_count }
        requires lowest { bit_at number place ≡ 1 }
        requires none_below { (j : ℕ) → j < place → bit_at number j ≡ 0 }
        requires asked { place ≡ J.number }
        ensures table { seat.new.table_id ≡ seat.old.table_id }
        ensures done { result ≡ number → TakesBuffer seat.old.me (event.Claim (Some place)) place seat.new.me }
        ensures lost { result ≢ number → ReadsPool seat.old.me result seat.new.me }
    {
        self.table
            .shared
            .compare_exchange::<Claim<J>>(seat, POOL, number, number ^ bit_of(place))
    }

    /// Takes the buffers of all of the pool's places in hand: the places, lowest first.
    pub(crate) fn sweep_pool_word(&self, seat: &mut Seat) -> ArrayVec<u8, 15>
        requires table { seat.old.table_id ≡ board_id self.now }
        requires idle { IsIdle seat.old.me }
        ensures table { seat.new.table_id ≡ seat.old.table_id }
        ensures rising { IsRising result.items }
        ensures sweeps { TakesAll seat.old.me (event.SweepPool result.items) result.items seat.new.me }
    {
        places_of(self.table.shared.swap::<SweepPool>(seat, POOL, 0))
    }
}
