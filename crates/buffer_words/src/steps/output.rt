//! The single steps on the output's word.
ghost use Rattle.std.specs.Prelude.{◌≡◌, ◌≢◌, ◌<◌, ◌≤◌, ◌^◌};
ghost use Rattle.gev_types.specs.Limits.{place_count};
ghost use Rattle.board_machine.specs.declared.events.Event.TheVariants as event;
ghost use Rattle.board_machine.specs.declared.events.TakeEnd.TheVariants as take_end;
ghost use Rattle.buffer_words.specs.Boards.{board_id};
ghost use Rattle.buffer_words.specs.Plays.{IsIdle, HoldsBuffer, LooksAt};
ghost use Rattle.buffer_words.specs.Swept.{TakesAll};
ghost use Rattle.buffer_words.specs.Output.{AreFields, HasFields, IsMarked, ReadsOut, TakesOut, first_in, IsUnit, HasLast, RefusesFill, FillsOut};

use crate::plays::Asked;
use crate::plays::output::{CloseOut, Fill, LookOut, SeeFirst, SeeMark, SweepOut, TakeFirst};
use crate::words::{Board, Seat};
use arrayvec::ArrayVec;

/// The output's word in the table.
const OUT: usize = 16;

/// The close mark in the output's word, above its 15 fields of four bits.
const MARK: u64 = 1 << 60;

/// The places in the number's fields, the one in the lowest field first.
fn places_in(number: u64) -> ArrayVec<u8, 15>
    requires fields { HasFields number }
    ensures fields { AreFields number result.items }
{
    let mut places = ArrayVec::new();
    let mut rest = number;
    while rest > 0 {
        places.push((rest % 16 - 1) as u8);
        rest /= 16;
    }
    places
}

/// The place in the lowest field.
pub(crate) fn first_place(number: u64) -> u8
    requires fields { HasFields number }
    requires some { 0 < number }
    ensures in_range { result < place_count }
    ensures first { result ≡ first_in number }
{
    (number % 16 - 1) as u8
}

/// The unit of the lowest field that is free.
fn unit_of(number: u64) -> u64
    requires room { number < 2 ^ 56 }
    ensures unit { IsUnit number result }
{
    let mut unit = 1;
    while unit <= number {
        unit *= 16;
    }
    unit
}

/// The number with a place in the lowest field that is free.
fn with_last(number: u64, place: u8) -> u64
    requires room { number < 2 ^ 56 }
    requires in_range { place < place_count }
    ensures last { HasLast number place result }
{
    number + (u64::from(place) + 1) * unit_of(number)
}

/// Whether the close mark stands in the output's word.
pub(crate) fn is_marked(number: u64) -> bool
    ensures mark { IsMarked number result }
{
    number >= MARK
}

impl Board {
    /// The output's places, first in first, and whether the close mark stands.
    pub(crate) fn look_at_out(&self, seat: &mut Seat) -> (ArrayVec<u8, 15>, bool)
        requires table { seat.old.table_id ≡ board_id self.now }
        requires idle { IsIdle seat.old.me }
        ensures table { seat.new.table_id ≡ seat.old.table_id }
        ensures looks { LooksAt seat.old.me (event.LookOut result.0.items result.1) seat.new.me }
    {
        let number = self.table.shared.load::<LookOut>(seat, OUT);
        (places_in(number % MARK), is_marked(number))
    }

    /// Sets the close mark.
    pub(crate) fn set_mark(&self, seat: &mut Seat)
        requires table { seat.old.table_id ≡ board_id self.now }
        requires idle { IsIdle seat.old.me }
        ensures table { seat.new.table_id ≡ seat.old.table_id }
        ensures closes { LooksAt seat.old.me event.Close seat.new.me }
    {
        self.table.shared.fetch_or::<CloseOut>(seat, OUT, MARK);
    }

    /// Takes the buffers of all of the output's places in hand: the places, first in first.
    pub(crate) fn sweep_out_word(&self, seat: &mut Seat) -> ArrayVec<u8, 15>
        requires table { seat.old.table_id ≡ board_id self.now }
        requires idle { IsIdle seat.old.me }
        ensures table { seat.new.table_id ≡ seat.old.table_id }
        ensures sweeps { TakesAll seat.old.me (event.SweepOut result.items) result.items seat.new.me }
    {
        places_in(self.table.shared.fetch_and::<SweepOut>(seat, OUT, MARK) % MARK)
    }

    /// A take's load: the number of the output's word.
    pub(crate) fn see_first(&self, seat: &mut Seat) -> u64
        requires table { seat.old.table_id ≡ board_id self.now }
        requires idle { IsIdle seat.old.me }
        ensures table { seat.new.table_id ≡ seat.old.table_id }
        ensures closed { 2 ^ 60 ≤ result → LooksAt seat.old.me (event.Take take_end.Closed) seat.new.me }
        ensures empty { result ≡ 0 → LooksAt seat.old.me (event.Take take_end.Empty) seat.new.me }
        ensures some { 0 < result → result < 2 ^ 60 → ReadsOut seat.old.me result seat.new.me }
    {
        self.table.shared.load::<SeeFirst>(seat, OUT)
    }

    /// A take's exchange: the number found, which is the one that was read where the take is done.
    pub(crate) fn take_first(&self, seat: &mut Seat, number: u64) -> u64
        requires table { seat.old.table_id ≡ board_id self.now }
        requires idle { IsIdle seat.old.me }
        requires some { 0 < number }
        requires open { number < 2 ^ 60 }
        ensures table { seat.new.table_id ≡ seat.old.table_id }
        ensures done { result ≡ number → TakesOut seat.old.me (first_in number) seat.new.me }
        ensures lost { result ≢ number → ReadsOut seat.old.me result seat.new.me }
    {
        self.table
            .shared
            .compare_exchange::<TakeFirst>(seat, OUT, number, number / 16)
    }

    /// A fill's load: the number of the output's word.
    pub(crate) fn see_mark<J: Asked>(&self, seat: &mut Seat, place: u8) -> u64
        requires table { seat.old.table_id ≡ board_id self.now }
        requires idle { IsIdle seat.old.me }
        requires holds { HoldsBuffer seat.old.me place }
        requires asked { place ≡ J.number }
        ensures table { seat.new.table_id ≡ seat.old.table_id }
        ensures closed { 2 ^ 60 ≤ result → RefusesFill seat.old.me place seat.new.me }
        ensures open { result < 2 ^ 60 → ReadsOut seat.old.me result seat.new.me }
    {
        self.table.shared.load::<SeeMark<J>>(seat, OUT)
    }

    /// A fill's exchange: the number found, which is the one that was read where the fill is done.
    pub(crate) fn put_last<J: Asked>(&self, seat: &mut Seat, number: u64, place: u8) -> u64
        requires table { seat.old.table_id ≡ board_id self.now }
        requires idle { IsIdle seat.old.me }
        requires in_range { place < place_count }
        requires holds { HoldsBuffer seat.old.me place }
        requires room { number < 2 ^ 56 }
        requires asked { place ≡ J.number }
        ensures table { seat.new.table_id ≡ seat.old.table_id }
        ensures done { result ≡ number → FillsOut seat.old.me place seat.new.me }
        ensures lost { result ≢ number → ReadsOut seat.old.me result seat.new.me }
    {
        self.table
            .shared
            .compare_exchange::<Fill<J>>(seat, OUT, number, with_last(number, place))
    }
}
