//! What all lanes counted together.
use acquisition_machine::Counts;

/// The sum of two counts, each of which stands still at its type's end.
pub(crate) fn with_counts(one: Counts, other: Counts) -> Counts {
    Counts {
        underrun: one.underrun.saturating_add(other.underrun),
        requests: one.requests.saturating_add(other.requests),
        foreign: one.foreign.saturating_add(other.foreign),
        late: one.late.saturating_add(other.late),
        repeat: one.repeat.saturating_add(other.repeat),
        misfit: one.misfit.saturating_add(other.misfit),
        starved: one.starved.saturating_add(other.starved),
        notice: one.notice.saturating_add(other.notice),
    }
}
