//! The calls that queue a buffer, take it back, borrow and return it.

ghost use Rattle.std.specs.Prelude.{◌≡◌, ◌<◌, IfOk, IfErr, OnOk, OnErr, Ok};
ghost use Rattle.gev_types.specs.Limits.{place_count};
ghost use Rattle.board_machine.specs.declared.events.Event.TheVariants as event;
ghost use Rattle.board_calls.specs.Calls.{Borrows, Queues, RefusesGrab, Returns, Revokes};
ghost use Rattle.buffer_words.specs.Boards.{board_id};
ghost use Rattle.buffer_words.specs.Passes.{gone, lifted, slot_at, Enters, SameHands, Has, Gets};
ghost use Rattle.buffer_words.specs.Loans.{IsLoanOf};
ghost use Rattle.buffer_words.specs.Several.{EntersOf, EntersThen};
ghost use Rattle.gentl_stream.specs.Revoked.{GivesBack};

use crate::looks::look_closed;
use board_calls::{as_busy, grab_refusal};
use buffer_words::{Board, Loan, Pass};
use gentl_types::{BufferId, GcError, Shown};
use gev_types::{Buf, PLACES};
use input_pool::put_back;

/// Takes the buffer with this id in hand.
fn grab_by_id(board: &Board, pass: &mut Pass, id: BufferId) -> Result<(), GcError>
    requires table { pass.old.table ≡ board_id board.now }
    ensures in_range { OnOk result (id.place < place_count) }
    ensures entry { OnOk result (Enters pass.old (event.Grab id.place id.generation (Ok tt)) pass.new) }
    ensures done { OnOk result (Gets id.place pass.old pass.new) }
    ensures refused { IfErr result (λ error. EntersOf pass.old (RefusesGrab id error) pass.new) }
    ensures same { OnErr result (SameHands pass.old pass.new) }
    ensures table { pass.new.table ≡ pass.old.table }
{
    if id.place >= PLACES {
        return Err(GcError::InvalidHandle(Shown::NoHandle(u64::from(id.place))));
    }
    match board.grab(pass, id.place, id.generation) {
        Ok(()) => Ok(()),
        Err(word) => Err(grab_refusal(id, word)),
    }
}

/// DSQueueBuffer: puts a held buffer into the input pool.
pub fn ds_queue(board: &Board, pass: &mut Pass, id: BufferId) -> Result<(), GcError>
    requires table { pass.old.table ≡ board_id board.now }
    ensures entries { EntersOf pass.old (Queues id result) pass.new }
    ensures hands { SameHands pass.old pass.new }
{
    if look_closed(board, pass) {
        return Err(GcError::InvalidHandle(Shown::Closed));
    }
    grab_by_id(board, pass, id)?;
    put_back(board, pass, id.place);
    Ok(())
}

/// DSRevokeBuffer: takes a held buffer away from its place, and gives it back.
pub fn ds_revoke(board: &Board, pass: &mut Pass, id: BufferId) -> Result<Buf, GcError>
    requires table { pass.old.table ≡ board_id board.now }
    ensures entries { EntersOf pass.old (Revokes id result) pass.new }
    ensures buffer { IfOk result (λ buf. GivesBack id buf pass.old pass.new) }
    ensures hands { SameHands pass.old pass.new }
{
    match grab_by_id(board, pass, id) {
        Ok(()) => Ok(board.vacate(pass, id.place)),
        Err(error) => Err(as_busy(error)),
    }
}

/// Takes a held buffer in hand, as a loan that `ds_return` ends.
pub fn ds_borrow(board: &Board, pass: &mut Pass, id: BufferId) -> Result<Loan, GcError>
    requires table { pass.old.table ≡ board_id board.now }
    ensures entries { EntersThen pass.old (Borrows id result) pass.new }
    ensures refused { OnErr result (EntersOf pass.old (Borrows id result) pass.new) }
    ensures same { OnErr result (SameHands pass.old pass.new) }
    ensures id { IfOk result (λ loan. loan.id ≡ id) }
    ensures loan { IfOk result (λ loan. IsLoanOf pass.new loan) }
    ensures new { OnOk result (slot_at pass.old id.place ≡ gone) }
    ensures hands { OnOk result (Has id.place lifted pass.old pass.new) }
{
    grab_by_id(board, pass, id)?;
    Ok(board.lend(pass, id.place))
}

/// Ends a loan: its buffer is the application's again.
pub fn ds_return(board: &Board, pass: &mut Pass, loan: Loan)
    requires table { pass.old.table ≡ board_id board.now }
    requires loan { IsLoanOf pass.old loan }
    ensures entries { EntersOf pass.old (Returns loan.id.place) pass.new }
    ensures hands { Has loan.id.place gone pass.old pass.new }
{
    let place = loan.id().place;
    board.spend(pass, loan);
    board.lay(pass, place);
}
