//! What becomes of a buffer that was taken.

ghost use Rattle.std.specs.Prelude.{◌≡◌};
ghost use Rattle.buffer_words.specs.Boards.{board_id};
ghost use Rattle.buffer_words.specs.Passes.{gone, Has};
ghost use Rattle.buffer_words.specs.Loans.{IsLoanOf};
ghost use Rattle.gev_apply.specs.Applied.{IsGivenBack};
ghost use Rattle.frame_writing.specs.Texts.{text_of};
ghost use Rattle.frame_writing.specs.Turns.{WritesBy};

use crate::write_stop::WriteStop;
use crate::writing::write_frame;
use buffer_words::{Board, Loan, Pass};
use camera_words::Output;
use gentl_stream::{ds_queue, ds_return};
use gev_links::Sink;
use std::alloc::Global;

/// Writes what is wanted of the buffer, and then gives it back and queues it, also where writing failed.
pub(crate) fn hand_out<K: Sink>(
    alloc: Global,
    board: &Board,
    pass: &mut Pass,
    loan: Loan,
    output: Output,
    sink: &mut K,
) -> Result<(), WriteStop>
    requires table { pass.old.table ≡ board_id board.now }
    requires loan { IsLoanOf pass.old loan }
    ensures back { IsGivenBack loan pass.old pass.new }
    ensures hands { Has loan.id.place gone pass.old pass.new }
    ensures wrote { WritesBy result (text_of output loan.id loan.filling) (K.written sink.old) (K.written sink.new) (K.faults sink.old) (K.faults sink.new) }
{
    let id = loan.id();
    let wrote = write_frame(alloc, output, id, loan.buf(), sink);
    ds_return(board, pass, loan);
    let _ = ds_queue(board, pass, id);
    wrote
}
