//! The information calls.

ghost use Rattle.std.specs.Prelude.{◌≡◌, ◌≤◌, ◌+◌};
ghost use Rattle.board_machine.specs.Places.{times};
ghost use Rattle.board_calls.specs.Infos.{used, IsOneWhere, CountsAnnounced, CountsOutput, CountsPool, TellsGrabbing, Infos, LooksForPlace, BufferInfos};
ghost use Rattle.buffer_words.specs.Boards.{board_id};
ghost use Rattle.buffer_words.specs.Passes.{SameHands};
ghost use Rattle.buffer_words.specs.Several.{EntersOf};

use board_calls::is_gone;
use buffer_words::{Board, Pass};
use gentl_types::{BufferId, GcError, Shown, State, Word};
use gev_types::PLACES;

/// How many buffers the place of this word has.
fn counts(word: Word) -> u64
    ensures { result ≡ used word.state }
{
    match word.state {
        State::Vacant => 0,
        State::Held | State::Away => 1,
    }
}

/// NUM_ANNOUNCED: the places whose word, each at a look of its own, isn't Vacant.
fn count_announced(board: &Board, pass: &mut Pass) -> u64
    requires table { pass.old.table ≡ board_id board.now }
    ensures entries { EntersOf pass.old (CountsAnnounced result) pass.new }
    ensures hands { SameHands pass.old pass.new }
{
    let mut count = 0;
    for place in 0..PLACES {
        count += counts(board.load(pass, place));
    }
    count
}

/// NUM_AWAIT_DELIVERY: the length of the output.
fn count_output(board: &Board, pass: &mut Pass) -> u64
    requires table { pass.old.table ≡ board_id board.now }
    ensures entries { EntersOf pass.old (CountsOutput result) pass.new }
    ensures hands { SameHands pass.old pass.new }
{
    let (output, _closed) = board.look_out(pass);
    output.len() as u64
}

/// IS_GRABBING: 1 where the run word is 1, else 0.
fn grabbing_value(board: &Board, pass: &mut Pass) -> u64
    requires table { pass.old.table ≡ board_id board.now }
    ensures entries { EntersOf pass.old (TellsGrabbing result) pass.new }
    ensures hands { SameHands pass.old pass.new }
{
    if board.look_run(pass) == 1 { 1 } else { 0 }
}

/// How many buffers the pool has.
fn count_pool(board: &Board, pass: &mut Pass) -> u64
    requires table { pass.old.table ≡ board_id board.now }
    ensures entries { EntersOf pass.old (CountsPool result) pass.new }
    ensures hands { SameHands pass.old pass.new }
{
    board.look_pool(pass).len() as u64
}

/// DSGetInfo: 3 NUM_ANNOUNCED, 5 NUM_AWAIT_DELIVERY, 8 IS_GRABBING, and 1000, a value of this
/// project's own, how many buffers the pool has. For any other number `NotAvailable` with it.
pub fn ds_info(board: &Board, pass: &mut Pass, which: u32) -> Result<u64, GcError>
    requires table { pass.old.table ≡ board_id board.now }
    ensures entries { EntersOf pass.old (Infos which result) pass.new }
    ensures hands { SameHands pass.old pass.new }
{
    match which {
        3 => Ok(count_announced(board, pass)),
        5 => Ok(count_output(board, pass)),
        8 => Ok(grabbing_value(board, pass)),
        1000 => Ok(count_pool(board, pass)),
        _ => Err(GcError::NotAvailable(which)),
    }
}

/// 1 where one of the two queues has the place, else 0.
fn among_value(place: u8, pooled: &[u8], output: &[u8]) -> u64
    ensures { IsOneWhere result (1 ≤ times place pooled.now + times place output.now) }
{
    if pooled.contains(&place) {
        return 1;
    }
    if output.contains(&place) { 1 } else { 0 }
}

/// Whether the pool, at its look, or then the output, at its look, has the place: 1, else 0.
fn queued_value(board: &Board, pass: &mut Pass, place: u8) -> u64
    requires table { pass.old.table ≡ board_id board.now }
    ensures entries { EntersOf pass.old (LooksForPlace place result) pass.new }
    ensures hands { SameHands pass.old pass.new }
{
    let pooled = board.look_pool(pass);
    let (output, _closed) = board.look_out(pass);
    among_value(place, pooled.as_slice(), output.as_slice())
}

/// DSGetBufferInfo: 1 SIZE in bytes, and 1000, a value of this project's own, 1 where the pool or
/// the output has the place. `InvalidHandle` with a place above 14, or with the place's word where the
/// buffer was taken away; then `NotAvailable` for any other number.
pub fn ds_buffer_info(
    board: &Board,
    pass: &mut Pass,
    id: BufferId,
    which: u32,
) -> Result<u64, GcError>
    requires table { pass.old.table ≡ board_id board.now }
    ensures entries { EntersOf pass.old (BufferInfos id which result) pass.new }
    ensures hands { SameHands pass.old pass.new }
{
    if id.place >= PLACES {
        return Err(GcError::InvalidHandle(Shown::NoHandle(u64::from(id.place))));
    }
    let word = board.load(pass, id.place);
    if is_gone(word, id.generation) {
        return Err(GcError::InvalidHandle(Shown::Word(word)));
    }
    match which {
        1 => Ok(u64::from(word.size)),
        1000 => Ok(queued_value(board, pass, id.place)),
        _ => Err(GcError::NotAvailable(which)),
    }
}
