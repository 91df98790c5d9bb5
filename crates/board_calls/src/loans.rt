//! The information of a buffer that is a loan.

ghost use Rattle.std.specs.Prelude.{◌≡◌};
ghost use Rattle.board_calls.specs.Loans.{loan_value};

use gentl_types::GcError;
use gev_types::Record;

/// The information of a borrowed buffer with this record: 4 NEW_DATA, 7 IS_INCOMPLETE, 9 SIZE_FILLED
/// in bytes, 16 FRAMEID, and 29 DATA_LARGER_THAN_BUFFER, each flag as 1 or 0.
pub fn loan_info(rec: Record, which: u32) -> Result<u64, GcError>
    ensures { result ≡ loan_value rec which }
{
    match which {
        4 => Ok(u64::from(rec.block != 0)),
        7 => Ok(u64::from(!rec.complete)),
        9 => Ok(u64::from(rec.filled)),
        16 => Ok(rec.block),
        29 => Ok(u64::from(rec.larger)),
        _ => Err(GcError::NotAvailable(which)),
    }
}
