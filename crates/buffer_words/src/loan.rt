//! A buffer that is lent out of the board.
ghost use Rattle.std.specs.Prelude.{◌≡◌};
ghost use Rattle.board_calls.specs.Loans.{loan_value};

use board_calls::loan_info;
use gentl_types::{BufferId, GcError};
use gev_types::Buf;
use std::marker::Model;

/// A borrowed buffer. Its place stays in the hands of the pass that got it, lifted, until it is spent.
pub struct Loan {
    pub(crate) id: BufferId,
    pub(crate) buf: Buf,
}

impl Model for Loan {
    ghost use Rattle.buffer_words.specs.Loans.{Lent};

    ghost Value = { Lent };

    ghost view = { λ l. record { id = l.id; filling = l.buf } };
}

impl Loan {
    /// Which buffer it is: its place, 0 to 14, and its generation.
    pub fn id(&self) -> BufferId
        ensures { result ≡ self.now.id }
    {
        self.id
    }

    /// The buffer's bytes and the record of its block.
    pub fn buf(&self) -> &Buf
        ensures { result.now ≡ self.now.filling }
    {
        &self.buf
    }

    /// The buffer's information (GenTL, BUFFER_INFO_CMD): 4 NEW_DATA, 7 IS_INCOMPLETE, 9 SIZE_FILLED
    /// in bytes, 16 FRAMEID, and 29 DATA_LARGER_THAN_BUFFER, each flag as 1 or 0. For any other number
    /// `NotAvailable` with it.
    pub fn info(&self, which: u32) -> Result<u64, GcError>
        ensures { result ≡ loan_value self.now.filling.rec which }
    {
        loan_info(self.buf.rec(), which)
    }
}
