//! Blocks retire, the lowest first.

ghost use Rattle.std.specs.Prelude.{◌≡◌, ℕ, ◌<◌, ◌∷◌, [], List, true, false, IsSome, None};
ghost use Rattle.std.specs.Vec.{vec_len};
ghost use Rattle.acquisition_machine.specs.Blocks.{Open, due};
ghost use Rattle.acquisition_machine.specs.Machine.{State, stop as stopped_input, restart as restarted_input, leaving, staying, all_stopped, step};
ghost use Rattle.acq_core.specs.Standing.{SlotsStand, AreSlots, Acts, HasRoom};
ghost use Rattle.acq_core.specs.Ending.{cause_if};
ghost use Rattle.acq_core.specs.Turning.{Gives};
ghost use Rattle.acq_core.specs.Retiring.{ChangesSlots, RetiresFirst, RetiresAll};

use crate::ending::list_end;
use crate::slots::{due_cause, release};
use crate::window::Window;
use gev_types::Cause;

/// The lowest block retires.
pub(crate) fn retire_first(window: &mut Window, cause: Cause)
    requires some { 0 < vec_len window.old.slots }
    requires slots { AreSlots window.old }
    requires room { HasRoom window.old }
    ensures retires { (o : Open) (os : List Open) → SlotsStand window.old.config.p window.old.slots.items (o ∷ os)
        → RetiresFirst window.old window.new cause o os }
    ensures changes { ChangesSlots window.old window.new }
    ensures fewer { vec_len window.new.slots < vec_len window.old.slots }
    ensures room { HasRoom window.new }
{
    let slot = window.slots.remove(0);
    list_end(window, &slot, cause);
    window.floor = slot.block.checked_add(1);
    release(
        slot.hold,
        window.config.p,
        cause,
        &mut window.fills,
        &mut window.spare,
    );
}

/// Why the lowest block has to retire, if it has.
fn first_due(window: &Window) -> Option<Cause>
    requires { AreSlots window.now }
    ensures none { vec_len window.now.slots ≡ 0 → result ≡ None }
    ensures some { IsSome result → 0 < vec_len window.now.slots }
    ensures due { (o : Open) (os : List Open) → SlotsStand window.now.config.p window.now.slots.items (o ∷ os)
        → result ≡ cause_if (due window.now.config window.now.moment o) }
{
    if window.slots.is_empty() {
        return None;
    }
    due_cause(&window.slots[0], window.config, window.moment)
}

/// The lowest block retires, and the next, as long as each is complete or old.
pub(crate) fn settle(window: &mut Window)
    requires slots { AreSlots window.old }
    requires room { HasRoom window.old }
    ensures retires { (os : List Open) → SlotsStand window.old.config.p window.old.slots.items os
        → RetiresAll window.old window.new
        (leaving window.old.config window.old.moment os) (staying window.old.config window.old.moment os) }
    ensures changes { ChangesSlots window.old window.new }
    ensures room { HasRoom window.new }
{
    while let Some(cause) = first_due(window) {
        retire_first(window, cause);
    }
}

/// All blocks retire, the lowest first.
fn retire_all(window: &mut Window)
    requires slots { AreSlots window.old }
    requires room { HasRoom window.old }
    ensures retires { (os : List Open) → SlotsStand window.old.config.p window.old.slots.items os
        → RetiresAll window.old window.new (all_stopped os) [] }
    ensures changes { ChangesSlots window.old window.new }
    ensures room { HasRoom window.new }
{
    while !window.slots.is_empty() {
        retire_first(window, Cause::Stopped);
    }
}

/// The stream stops: all blocks retire as they are.
pub(crate) fn stop(window: &mut Window)
    requires slots { AreSlots window.old }
    requires room { HasRoom window.old }
    ensures gives { (s : State) → Acts window.old s → Gives window.old window.new (step window.old.config s stopped_input) }
    ensures room { HasRoom window.new }
{
    window.asked = None;
    retire_all(window);
}

/// Block ids begin again.
pub(crate) fn restart(window: &mut Window)
    requires { HasRoom window.old }
    ensures gives { (s : State) → Acts window.old s → Gives window.old window.new (step window.old.config s restarted_input) }
    ensures room { HasRoom window.new }
{
    window.asked = None;
    window.floor = Some(1);
}
