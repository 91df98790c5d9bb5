//! What waits is taken, first in first.

ghost use Rattle.std.specs.Prelude.{◌≡◌, ℕ, ◌≤◌, ◌==◌, [], ◌∷◌, List, position, IfSome, MatchOption};
ghost use Rattle.std.specs.Vec.{vec_len, vec_capacity};
ghost use Rattle.gvcp_wire.specs.declared.resend.Resend.{Resend as ResendOf};
ghost use Rattle.acquisition_machine.specs.Machine.{State, open_at};
ghost use Rattle.acquisition_machine.specs.Sound.{IsSound};
ghost use Rattle.acq_core.specs.Standing.{Acts};
ghost use Rattle.acq_core.specs.Receiver.{rounds_of};
ghost use Rattle.acq_core.specs.Waiting.{waiting_fills, waiting_requests, waiting_resends, waiting_ends, AreNumbered};

use crate::ended::Ended;
use crate::hearing::find;
use crate::window::Window;
use acquisition_machine::Retired;
use gvcp_wire::{Resend, write_resend};

/// The first fill that waits, if one does.
pub(crate) fn next_fill(window: &mut Window) -> Option<Retired>
    ensures fill { MatchOption result ((waiting_fills window.old ≡ []) × (waiting_fills window.new ≡ []))
        (λ fill. waiting_fills window.old ≡ fill ∷ waiting_fills window.new) }
    ensures rest { window.new ≡ record window.old { fills = window.new.fills } }
    ensures fewer { vec_len window.new.fills ≤ vec_len window.old.fills }
    ensures capacity { vec_capacity window.new.fills ≡ vec_capacity window.old.fills }
{
    if window.fills.is_empty() {
        return None;
    }
    Some(window.fills.remove(0))
}

/// The bytes of the first request that waits, if one does.
pub(crate) fn next_request(window: &mut Window) -> Option<[u8; 28]>
    requires { AreNumbered window.old }
    ensures request { MatchOption result ((waiting_requests window.old ≡ []) × (waiting_requests window.new ≡ []))
        (λ bytes. waiting_requests window.old ≡ bytes ∷ waiting_requests window.new) }
    ensures resend { MatchOption result (waiting_resends window.old ≡ waiting_resends window.new)
        (λ bytes. (r : ResendOf) × (waiting_resends window.old ≡ r ∷ waiting_resends window.new)) }
    ensures rest { window.new ≡ record window.old { requests = window.new.requests } }
    ensures capacity { vec_capacity window.new.requests ≡ vec_capacity window.old.requests }
    ensures numbered { AreNumbered window.new }
{
    if window.requests.is_empty() {
        return None;
    }
    let asked = window.requests.remove(0);
    let mut out = [0; 28];
    write_resend(&mut out, asked.number, asked.resend);
    Some(out)
}

/// The first block that is to be told, if one is.
pub(crate) fn next_ended(window: &mut Window) -> Option<Ended>
    ensures end { MatchOption result ((waiting_ends window.old ≡ []) × (waiting_ends window.new ≡ []))
        (λ end. waiting_ends window.old ≡ end ∷ waiting_ends window.new) }
    ensures rest { window.new ≡ record window.old { ends = window.new.ends } }
    ensures fewer { vec_len window.new.ends ≤ vec_len window.old.ends }
    ensures capacity { vec_capacity window.new.ends ≡ vec_capacity window.old.ends }
{
    if window.ends.is_empty() {
        return None;
    }
    Some(window.ends.remove(0))
}

/// How often the open block with this id has asked; 0 where no block with it is open.
fn round_of(window: &Window, block: u64) -> u8
    ensures { (s : State) → Acts window.now s → IsSound window.now.config s → result ≡ rounds_of (open_at block s.opens) }
{
    match find(window.slots.as_slice(), block) {
        Some(at) => window.slots[at].rounds,
        None => 0,
    }
}

/// What the first request that waits asks for, and its block's round.
pub(crate) fn first_request(window: &Window) -> Option<(Resend, u8)>
    ensures request { MatchOption result (waiting_resends window.now ≡ [])
        (λ r. (rest : List ResendOf) × (waiting_resends window.now ≡ r.0 ∷ rest)) }
    ensures round { (s : State) → Acts window.now s → IsSound window.now.config s
        → IfSome result (λ r. r.1 ≡ rounds_of (open_at r.0.block s.opens)) }
{
    if window.requests.is_empty() {
        return None;
    }
    let asked = window.requests[0];
    Some((asked.resend, round_of(window, asked.resend.block)))
}
