//! What becomes of a buffer that was taken.

ghost use Rattle.std.specs.Prelude.{◌≡◌, ◌++◌, OnOk, OnErr};
ghost use Rattle.buffer_words.specs.Boards.{board_id};
ghost use Rattle.buffer_words.specs.Passes.{gone, Has};
ghost use Rattle.buffer_words.specs.Loans.{IsLoanOf};
ghost use Rattle.gev_report.specs.ReplayLines.{take_line};
ghost use Rattle.gev_apply.specs.Applied.{IsGivenBack};

use buffer_words::{Board, Loan, Pass};
use gentl_stream::{ds_queue, ds_return};
use gev_report::line_take;
use gev_types::NoMemory;
use std::alloc::Global;

/// Adds the buffer's line, gives the buffer back and queues it, also where its line wanted memory.
pub(crate) fn hand_out(
    alloc: Global,
    board: &Board,
    pass: &mut Pass,
    loan: Loan,
    out: &mut Vec<u8>,
) -> Result<(), NoMemory>
    requires table { pass.old.table ≡ board_id board.now }
    requires loan { IsLoanOf pass.old loan }
    ensures back { IsGivenBack loan pass.old pass.new }
    ensures hands { Has loan.id.place gone pass.old pass.new }
    ensures line { OnOk result (out.new.items ≡ out.old.items ++ take_line loan.id loan.filling) }
    ensures unchanged { OnErr result (out.new.items ≡ out.old.items) }
{
    let id = loan.id();
    let line = line_take(alloc, id, loan.buf(), out);
    ds_return(board, pass, loan);
    let _ = ds_queue(board, pass, id);
    line
}
