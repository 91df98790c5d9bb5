use crate::acq_end::AcqEnd;

/// How a list of orders was carried out.
#[derive(Clone, Copy, Debug, PartialEq, Eq)]
pub struct Carried {
    /// How it ended: with Stopped once all of them were acknowledged.
    pub end: AcqEnd,
    /// How many of them were submitted, from the first on. With Refused and NoAnswer the last of these is the
    /// one that was refused or had no answer, or with 0 the command that was outstanding before.
    pub begun: usize,
}

/// An order that a camera refused.
#[derive(Clone, Copy, Debug, PartialEq, Eq)]
pub struct Refusal {
    /// Its place in the list.
    pub place: usize,
    /// The status of its acknowledge, which isn't 0.
    pub status: u16,
}

/// How a list of orders was carried out that goes on behind a refusal.
#[derive(Clone, Copy, Debug, PartialEq, Eq)]
pub struct CarriedThrough {
    /// How it ended: with Stopped once each of them was acknowledged or refused.
    pub end: AcqEnd,
    /// The first of the refusals.
    pub refused: Option<Refusal>,
}
