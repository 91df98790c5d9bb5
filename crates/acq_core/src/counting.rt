//! Counts that stand still at their type's end.

ghost use Rattle.std.specs.Prelude.{◌≡◌, ◌+◌, ◌^◌, ◌-◌, min};
ghost use Rattle.acquisition_machine.specs.declared.counts.Counts.{Counts as CountsOf};
ghost use Rattle.acquisition_machine.specs.Machine.{count, next_number};
ghost use Rattle.acq_core.specs.Standing.{capped};

use acquisition_machine::{Counts, Why};

/// One more datagram was ignored for this reason.
pub(crate) fn count(counts: &mut Counts, why: Why)
    ensures { (n : CountsOf) → counts.old ≡ capped n → counts.new ≡ capped (count why n) }
{
    match why {
        Why::Foreign(_) => counts.foreign = counts.foreign.saturating_add(1),
        Why::Late(_) => counts.late = counts.late.saturating_add(1),
        Why::Repeat => counts.repeat = counts.repeat.saturating_add(1),
        Why::Misfit => counts.misfit = counts.misfit.saturating_add(1),
        Why::Starved => counts.starved = counts.starved.saturating_add(1),
        Why::Notice => counts.notice = counts.notice.saturating_add(1),
    }
}

/// The request number after this one: no request has the number 0.
pub(crate) fn next(number: u16) -> u16
    ensures { result ≡ next_number number }
{
    if number == u16::MAX { 1 } else { number + 1 }
}
