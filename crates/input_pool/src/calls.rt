ghost use Rattle.std.specs.Prelude.{◌≡◌, ◌<◌, Err, IfErr, OnOk};
ghost use Rattle.gev_types.specs.Limits.{place_count};
ghost use Rattle.board_machine.specs.declared.events.Event.TheVariants as event;
ghost use Rattle.board_machine.specs.Places.{IsRising};
ghost use Rattle.buffer_words.specs.Boards.{board_id};
ghost use Rattle.buffer_words.specs.Passes.{gone, IsWhole, Enters, SameHands, Has};
ghost use Rattle.buffer_words.specs.Tries.{GetsOne};
ghost use Rattle.buffer_words.specs.Swept.{GetsAll};
ghost use Rattle.input_pool.specs.Queued.{QueuesIn};

use arrayvec::ArrayVec;
use buffer_words::{Board, Pass, Tried, Word};
use std::sync::Wait;

/// Puts the buffer of a place into the pool, where its word is Held with this generation; else the word
/// that was found.
pub fn queue(board: &Board, pass: &mut Pass, place: u8, generation: u32) -> Result<(), Word>
    requires table { pass.old.table ≡ board_id board.now }
    requires in_range { place < place_count }
    ensures done { OnOk result (QueuesIn pass.old place generation pass.new) }
    ensures refused { IfErr result (λ word. Enters pass.old (event.Grab place generation (Err word)) pass.new) }
    ensures hands { SameHands pass.old pass.new }
{
    board.grab(pass, place, generation)?;
    put_back(board, pass, place);
    Ok(())
}

/// Puts the buffer of a place in hand into the pool.
pub fn put_back(board: &Board, pass: &mut Pass, place: u8)
    requires table { pass.old.table ≡ board_id board.now }
    requires holds { IsWhole pass.old place }
    ensures entry { Enters pass.old (event.Pool place) pass.new }
    ensures hands { Has place gone pass.old pass.new }
{
    board.pool(pass, place);
}

/// Takes the pool's lowest place in hand; None where the pool is empty. Where another thread changed the
/// pool in between, it tries again.
pub fn claim<R: Wait>(rt: &R, board: &Board, pass: &mut Pass) -> Option<u8>
    requires table { pass.old.table ≡ board_id board.now }
    ensures entry { Enters pass.old (event.Claim result) pass.new }
    ensures hands { GetsOne result pass.old pass.new }
{
    'tries: for _ in rt.forever() {
        match board.try_claim(pass) {
            Tried::Did(place) => return place,
            Tried::Lost { .. } => {}
        }
    }
    unreachable!()
}

/// Takes the buffers of all of the pool's places in hand: the places, lowest first.
pub fn sweep(board: &Board, pass: &mut Pass) -> ArrayVec<u8, 15>
    requires table { pass.old.table ≡ board_id board.now }
    ensures entry { Enters pass.old (event.SweepPool result.items) pass.new }
    ensures rising { IsRising result.items }
    ensures hands { GetsAll result.items pass.old pass.new }
{
    board.sweep_pool(pass)
}
