//! Which packet ids of a block are missing, and why its image isn't whole.
//!
//! `specs/Ranges.antt` computes the maximal ranges of ids for which a test says false, and
//! `specs/RangeLaws.antt` says of them, in words of their own, what the layers above rest on.
//! `specs/Missing.antt` says up to which id packets may be missing, and which ranges of ids are.
//! `specs/Reasons.antt` says which reasons hold, `specs/Lost.antt` which packet ids are lost,
//! `specs/ReasonLaws.antt` what readers of both rest on, and `specs/Accounts.antt` what becomes of a
//! block that retires.
#![tactic(auto)]

mod laws;
mod range_laws;
mod reason_laws;

pub use laws::{missing_is_maximal, missing_is_worked};
pub use range_laws::{
    holes_are_maximal, holes_are_worked, holes_ask_within, holes_begin_with_first,
};
pub use reason_laws::{
    lost_ids_have_no_packet, reasons_are_reasons, reasons_are_worked, short_ones_spoil,
};
