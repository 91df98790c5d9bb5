use crate::asked::Asked;
use crate::ended::Ended;
use crate::slot::{Slot, Spare};
use acquisition_machine::{AcqConfig, Counts, Retired};

/// The receiver's state.
#[derive(Drop)]
pub(crate) struct Window {
    /// How blocks are received.
    pub(crate) config: AcqConfig,
    /// The greatest moment that was told, in milliseconds.
    pub(crate) moment: u64,
    /// One above the block that retired last; None where block ids are used up.
    pub(crate) floor: Option<u64>,
    /// The open blocks, lowest first.
    pub(crate) slots: Vec<Slot>,
    /// The block for which a buffer is claimed.
    pub(crate) asked: Option<u64>,
    /// What was counted.
    pub(crate) counts: Counts,
    /// The number of the next request.
    pub(crate) number: u16,
    /// The bitmaps of as many blocks as may still be opened.
    pub(crate) spare: Vec<Spare>,
    /// The fills that wait to be taken, first in first.
    pub(crate) fills: Vec<Retired>,
    /// Whether the blocks that retire are told.
    pub(crate) telling: bool,
    /// The blocks that retired at the last input and weren't told yet, first in first.
    pub(crate) ends: Vec<Ended>,
    /// The requests that wait to be sent, first in first.
    pub(crate) requests: Vec<Asked>,
}
