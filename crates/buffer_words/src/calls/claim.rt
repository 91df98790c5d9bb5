//! The claim of the pool's lowest place, and the sweep of the pool.
ghost use Rattle.std.specs.Prelude.{◌≡◌, ◌<◌, ◌≤◌, ◌+◌, ◌^◌, ℕ, ◌++◌, length};
ghost use Rattle.std.specs.Int.{bit_at};
ghost use Rattle.gev_types.specs.Limits.{place_count};
ghost use Rattle.board_machine.specs.declared.events.Event.TheVariants as event;
ghost use Rattle.buffer_words.specs.Boards.{board_id};
ghost use Rattle.buffer_words.specs.Passes.{Enters};
ghost use Rattle.board_machine.specs.Places.{IsRising};
ghost use Rattle.buffer_words.specs.Swept.{GetsAll};
ghost use Rattle.buffer_words.specs.Plays.{SeesPool};
ghost use Rattle.buffer_words.specs.Tries.{IfDid, IfLost, LostTo, GetsOne};

use crate::pass::Pass;
use crate::tried::Tried;
use crate::words::Board;
use arrayvec::ArrayVec;
use std::marker::Brand;

/// The lowest place whose bit is set.
fn lowest_of(number: u64) -> u8
    requires some { 0 < number }
    requires small { number < 2 ^ 15 }
    ensures in_range { result < place_count }
    ensures lowest { bit_at number result ≡ 1 }
    ensures none_below { (j : ℕ) → j < result → bit_at number j ≡ 0 }
{
    number.trailing_zeros() as u8
}

/// Puts the places of a sweep in front of those that a pass has.
pub(crate) fn prepend(held: &mut ArrayVec<u8, 15>, places: &ArrayVec<u8, 15>)
    requires room { length places.now.items + length held.old.items ≤ 15 }
    ensures { held.new.items ≡ places.now.items ++ held.old.items }
{
    let mut all = ArrayVec::new();
    // Both fit, by the condition.
    let _ = all.try_extend_from_slice(places.as_slice());
    let _ = all.try_extend_from_slice(held.as_slice());
    *held = all;
}

impl Board {
    /// Takes the pool's lowest place in hand, by one try: the place, or None where the pool is empty.
    pub fn try_claim(&self, pass: &mut Pass) -> Tried<Option<u8>>
        requires table { pass.old.table ≡ board_id self.now }
        ensures entry { IfDid result (λ place. Enters pass.old (event.Claim place) pass.new) }
        ensures hands { IfDid result (λ place. GetsOne place pass.old pass.new) }
        ensures lost { IfLost result (λ loaded found. LostTo SeesPool pass.old loaded found pass.new) }
    {
        let number = self.see_pool(&mut pass.seat);
        if number == 0 {
            return Tried::Did(None);
        }
        let place = lowest_of(number);
        let found = self.claim_pooled::<Brand>(&mut pass.seat, number, place);
        if found != number {
            return Tried::Lost {
                loaded: number,
                found,
            };
        }
        pass.held.insert(0, place);
        Tried::Did(Some(place))
    }

    /// Takes the buffers of all of the pool's places in hand: the places, lowest first.
    pub fn sweep_pool(&self, pass: &mut Pass) -> ArrayVec<u8, 15>
        requires table { pass.old.table ≡ board_id self.now }
        ensures entry { Enters pass.old (event.SweepPool result.items) pass.new }
        ensures rising { IsRising result.items }
        ensures hands { GetsAll result.items pass.old pass.new }
    {
        let places = self.sweep_pool_word(&mut pass.seat);
        prepend(&mut pass.held, &places);
        places
    }
}
