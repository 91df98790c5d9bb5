//! The wait for a filled buffer.

ghost use Rattle.std.specs.Prelude.{◌≡◌, IfOk, OnErr};
ghost use Rattle.buffer_words.specs.Boards.{board_id};
ghost use Rattle.buffer_words.specs.Passes.{SameHands};
ghost use Rattle.buffer_words.specs.Several.{EntersOf, EntersThen};
ghost use Rattle.gentl_events.specs.Turns.{lent_items, TakesMore, HasLoan, Turns};
ghost use Rattle.gentl_events.specs.Waits.{Waits};

use buffer_words::{Board, Loan, Pass};
use gentl_types::{GcError, Shown};
use gev_links::{Clock, Gate};
use output_queue::{TakeEnd, take};
use std::sync::Wait;

/// The point of a gate after a buffer was taken.
const AFTER_TAKE: u8 = 2;

/// One turn: takes the first buffer of the output as a loan; where the output is empty, takes a kill. None
/// where there was no kill either.
fn turn<R: Wait, G: Gate>(
    rt: &R,
    board: &Board,
    pass: &mut Pass,
    gate: &G,
) -> Option<Result<Loan, GcError>>
    requires table { pass.old.table ≡ board_id board.now }
    ensures table { pass.new.table ≡ pass.old.table }
    ensures turns { Turns result pass.old pass.new }
{
    match take(rt, board, pass) {
        TakeEnd::Taken(place) => {
            gate.pass(AFTER_TAKE);
            let loan = board.lend(pass, place);
            Some(Ok(loan))
        }
        TakeEnd::Closed => Some(Err(GcError::InvalidHandle(Shown::Closed))),
        TakeEnd::Empty => {
            if board.unpost(pass) {
                return Some(Err(GcError::Abort));
            }
            None
        }
    }
}

/// EventGetData: waits for a filled buffer, for `timeout` milliseconds by this clock, and takes the first
/// one as a loan, which `ds_return` ends. `InvalidHandle` where the stream was closed, `Abort` where the
/// output was empty and a kill was posted, and `Timeout` with the first and the last moment where it was
/// empty, no kill was posted, and the last moment is at least `timeout` after the first. A moment below the
/// first counts as the first, so with `timeout` 0 there is one turn.
///
/// It passes point 2 of the gate after each buffer that it took.
pub fn event_get<R: Wait, C: Clock, G: Gate>(
    rt: &R,
    board: &Board,
    pass: &mut Pass,
    clock: &mut C,
    gate: &G,
    timeout: u64,
) -> Result<Loan, GcError>
    requires table { pass.old.table ≡ board_id board.now }
    ensures entries { EntersThen pass.old (Waits timeout (C.told clock.old) (C.told clock.new) result) pass.new }
    ensures refused { OnErr result (EntersOf pass.old (Waits timeout (C.told clock.old) (C.told clock.new) result) pass.new) }
    ensures loan { IfOk result (λ loan. HasLoan loan pass.old pass.new) }
    ensures hands { OnErr result (SameHands pass.old pass.new) }
    ensures contents { TakesMore (lent_items result) pass.old pass.new }
{
    let first = clock.now();
    'turns: for _ in rt.forever() {
        match turn(rt, board, pass, gate) {
            Some(answer) => return answer,
            None => {}
        }
        let last = clock.now();
        if last.saturating_sub(first) >= timeout {
            return Err(GcError::Timeout { first, last });
        }
    }
    unreachable!()
}
