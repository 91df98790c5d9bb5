//! What is told of the blocks that retire.

ghost use Rattle.std.specs.Prelude.{◌≡◌, ℕ, ◌+◌, ◌≤◌, ◌<◌, ◌++◌, [], List, Option};
ghost use Rattle.std.specs.Vec.{vec_len, vec_capacity};
ghost use Rattle.stream_packets.specs.Packets.{StreamPacket};
ghost use Rattle.acquisition_machine.specs.Blocks.{Given, Open};
ghost use Rattle.acquisition_machine.specs.Machine.{shown};
ghost use Rattle.acq_core.specs.Standing.{HoldsFor, SlotStands, floor_of};
ghost use Rattle.acq_core.specs.Ending.{held_of, end_of, told_end};

use crate::ended::{Ended, Held};
use crate::slot::{Hold, Slot};
use crate::window::Window;
use gev_types::Cause;

/// What the block gave.
fn held(hold: &Hold) -> Option<Held>
    ensures { (p b : ℕ) (given : Option Given) (heard : List StreamPacket) → HoldsFor p b hold.now given heard
        → result ≡ held_of p b given heard }
{
    match hold {
        Hold::Without(_) => None,
        Hold::With(place, assembly) => Some(Held {
            place: *place,
            account: assembly.account(),
        }),
    }
}

/// The floor as it is shown.
fn shown_floor(floor: Option<u64>) -> Option<u64>
    ensures { result ≡ shown (floor_of floor) }
{
    floor
}

/// What is told of a block that retires.
fn ended(slot: &Slot, floor: Option<u64>, cause: Cause) -> Ended
    ensures { (p : ℕ) (o : Open) → SlotStands p slot.now o → result ≡ end_of p (floor_of floor) cause o }
{
    Ended {
        block: slot.block,
        floor: shown_floor(floor),
        cause,
        held: held(&slot.hold),
    }
}

/// Lists the end of the block that retires, if that is wanted.
pub(crate) fn list_end(window: &mut Window, slot: &Slot, cause: Cause)
    requires { vec_len window.old.ends < vec_capacity window.old.ends }
    ensures ends { (p : ℕ) (o : Open) → SlotStands p slot.now o
        → window.new.ends.items ≡ window.old.ends.items ++ told_end window.old.telling (end_of p (floor_of window.old.floor) cause o) }
    ensures rest { window.new ≡ record window.old { ends = window.new.ends } }
    ensures few { vec_len window.new.ends ≤ vec_len window.old.ends + 1 }
    ensures capacity { vec_capacity window.new.ends ≡ vec_capacity window.old.ends }
{
    if !window.telling {
        return;
    }
    let end = ended(slot, window.floor, cause);
    window.ends.push_reserved(end);
}

/// Nothing that retired before is told any more.
pub(crate) fn forget(window: &mut Window)
    ensures none { window.new.ends.items ≡ [] }
    ensures rest { window.new ≡ record window.old { ends = window.new.ends } }
    ensures fewer { vec_len window.new.ends ≡ 0 }
    ensures capacity { vec_capacity window.new.ends ≡ vec_capacity window.old.ends }
{
    window.ends.clear();
}
