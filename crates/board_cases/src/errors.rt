//! Rows of values alone: errors that no call of these rows gives, and what a record tells of a borrowed buffer.

use crate::answer::Answer;
use crate::words::{long, number, word};
use board_calls::loan_info;
use gentl_types::{GcError, Shown};
use gev_types::Record;

/// `error NAME` and a number where it has one.
pub fn error(words: &[&str]) -> Option<Answer> {
    let told = number(words, 2).unwrap_or(0);
    match word(words, 1)? {
        "in-use" => Some(Answer::Refused(GcError::ResourceInUse(Shown::NoHandle(told)))),
        "index" => Some(Answer::Refused(GcError::InvalidIndex(u32::try_from(told).ok()?))),
        "memory" => Some(Answer::Refused(GcError::OutOfMemory)),
        _ => None,
    }
}

/// `loan-info BLOCK COMPLETE LARGER FILLED NUMBER`: what a record tells, by the number of GenTL's list.
pub fn record_info(words: &[&str]) -> Option<Answer> {
    let filled = long(words, 4)?;
    let record = Record {
        block: number(words, 1)?,
        complete: number(words, 2)? != 0,
        larger: number(words, 3)? != 0,
        has_leader: true,
        data_len: filled,
        filled,
        image: None,
        account: None,
    };
    Some(Answer::value(loan_info(record, long(words, 5)?)))
}
